//! Whether a command on rollouts is accepted, and what is written where it is.

ghost use Rattle.rollout_machine.specs.Views.{command_of};
ghost use Rattle.campaign_core.specs.RolloutChecks.{Decides, Follows};

mod actions;
mod of_cancels;
mod of_deployments;
mod of_devices;
mod plans;
mod progress;
mod standing;

use actions::check_cancel;
pub use actions::{ActionChange, ActionView, CancelView, Ending, cancel};
pub use of_cancels::cancel_feedback;
use of_cancels::check_cancel_feedback;
use of_deployments::check_feedback;
pub use of_deployments::feedback;
pub use of_devices::{DeviceAction, FeedbackView, own_action};
pub use plans::{NewRollout, PlanView, create, new_rollout};
pub use progress::{ResumeView, TriggerView, resume, trigger};
use rollout_machine::Effects;
use rollout_model::{Command, Refusal};
pub use standing::{StandingView, approve, deny, pause, start};

/// What the verdict on a command on rollouts and its change rest on.
#[derive(Clone, Copy)]
pub enum RolloutCommandView {
    Create(PlanView),
    Approve(StandingView),
    Deny(StandingView),
    Start(StandingView),
    Pause(StandingView),
    /// Nothing where there is no such rollout.
    Resume(Option<ResumeView>),
    /// Nothing where there is no such rollout.
    TriggerNext(Option<TriggerView>),
    /// Nothing where the target is not there, or the action is not the target's.
    Cancel(Option<CancelView>),
    Feedback(FeedbackView),
    CancelFeedback(FeedbackView),
}

/// What is written of an accepted command, beside what the command itself says.
#[derive(Clone, Copy)]
pub enum RolloutChange {
    Create(NewRollout),
    Approve,
    Deny,
    Start,
    Pause,
    Resume(Effects),
    TriggerNext(Effects),
    Cancel(ActionChange),
    /// Nothing where the action had the same outcome, or had heard it by its number.
    Feedback(Option<ActionChange>),
    /// Nothing where the action had the same outcome, or had heard it by its number.
    CancelFeedback(Option<ActionChange>),
}

/// The verdict on a command and its change, over all sound records that the view is of.
fn decide(view: &RolloutCommandView, command: &Command) -> Result<RolloutChange, Refusal>
    ensures { Decides view.now (command_of command.now) result }
{
    use Command as Asked;
    use RolloutCommandView as Seen;
    match (view, command) {
        (Seen::Create(view), Asked::CreateRollout(plan)) => create(view, plan),
        (Seen::Approve(view), Asked::Approve(_)) => approve(view),
        (Seen::Deny(view), Asked::Deny(_)) => deny(view),
        (Seen::Start(view), Asked::Start(_)) => start(view),
        (Seen::Pause(view), Asked::Pause(_)) => pause(view),
        (Seen::Resume(view), Asked::Resume(_)) => resume(view),
        (Seen::TriggerNext(view), Asked::TriggerNext(_)) => trigger(view),
        (Seen::Cancel(view), Asked::Cancel(asked)) => check_cancel(view, asked),
        (Seen::Feedback(view), Asked::Feedback(given)) => check_feedback(view, given),
        (Seen::CancelFeedback(view), Asked::CancelFeedback(given)) => {
            check_cancel_feedback(view, given)
        }
        (_, _) => Err(Refusal::WrongState),
    }
}

/// The verdict on a command on rollouts: its change where it is accepted, and otherwise the first refusal that applies.
/// Takes no memory.
pub(crate) fn check_rollout(
    view: &RolloutCommandView,
    command: &Command,
) -> Result<RolloutChange, Refusal>
    ensures decides { Decides view.now (command_of command.now) result }
    ensures follows { Follows view.now (command_of command.now) result }
{
    decide(view, command)
}
