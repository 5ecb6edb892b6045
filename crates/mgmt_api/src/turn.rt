//! The turns that management gives a rollout.

ghost use Rattle.std.specs.Prelude.{◌≡◌};
ghost use Rattle.rollout_machine.specs.Views.{command_of};
ghost use Rattle.mgmt_api.specs.Turns.{turn_command};

use rollout_model::{Command, RolloutNo};

/// What management does to a rollout that is there.
#[derive(Clone, Copy)]
pub enum RolloutTurn {
    /// `approve`
    Approve,
    /// `deny`
    Deny,
    /// `start`
    Start,
    /// `pause`
    Pause,
    /// `resume`
    Resume,
    /// `triggerNextGroup`
    TriggerNext,
}

impl RolloutTurn {
    /// The command that gives the rollout of this number the turn.
    pub(crate) fn command(self, number: RolloutNo) -> Command
        ensures { command_of result ≡ turn_command self number }
    {
        match self {
            RolloutTurn::Approve => Command::Approve(number),
            RolloutTurn::Deny => Command::Deny(number),
            RolloutTurn::Start => Command::Start(number),
            RolloutTurn::Pause => Command::Pause(number),
            RolloutTurn::Resume => Command::Resume(number),
            RolloutTurn::TriggerNext => Command::TriggerNext(number),
        }
    }
}
