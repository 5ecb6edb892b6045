//! Whether a command is accepted, and what is written where it is.

ghost use Rattle.rollout_machine.specs.Views.{command_of};
ghost use Rattle.campaign_core.specs.Checks.{Decides, Follows};

mod artifacts;
mod modules;
mod sets;
mod targets;

use crate::rollout_checks::{RolloutChange, RolloutCommandView, check_rollout};
pub use artifacts::{ArtifactView, NewArtifact, add_artifact};
pub use modules::{ModuleView, NewModule, add_module};
use rollout_model::{Command, Refusal};
pub use sets::{NewSet, SetView, add_set};
pub use targets::{
    AttributesView, ImportView, TagView, UntagView, put_attributes, put_targets, tag, untag,
};

/// What the verdict on a command and its change rest on.
#[derive(Clone, Copy)]
pub enum View {
    AddModule(ModuleView),
    AddArtifact(ArtifactView),
    AddSet(SetView),
    PutTargets(ImportView),
    Tag(TagView),
    Untag(UntagView),
    PutAttributes(AttributesView),
    /// Of a command on rollouts.
    OnRollouts(RolloutCommandView),
}

/// What is written of an accepted command, beside what the command itself says.
#[derive(Clone, Copy)]
pub enum Change {
    AddModule(NewModule),
    AddArtifact(NewArtifact),
    AddSet(NewSet),
    PutTargets,
    Tag,
    Untag,
    PutAttributes,
    OnRollouts(RolloutChange),
}

/// The verdict on a command and its change, over all records that the view is of; on rollouts, over all sound ones.
fn decide(view: &View, command: &Command) -> Result<Change, Refusal>
    ensures { Decides view.now (command_of command.now) result }
{
    match (view, command) {
        (View::AddModule(view), Command::AddModule(_)) => Ok(Change::AddModule(add_module(view)?)),
        (View::AddArtifact(view), Command::AddArtifact(_)) => {
            Ok(Change::AddArtifact(add_artifact(view)?))
        }
        (View::AddSet(view), Command::AddSet(_)) => Ok(Change::AddSet(add_set(view)?)),
        (View::PutTargets(view), Command::PutTargets(_)) => {
            put_targets(view)?;
            Ok(Change::PutTargets)
        }
        (View::Tag(view), Command::Tag(_, _)) => {
            tag(view)?;
            Ok(Change::Tag)
        }
        (View::Untag(view), Command::Untag(_, _)) => {
            untag(view)?;
            Ok(Change::Untag)
        }
        (View::PutAttributes(view), Command::PutAttributes(_, _)) => {
            put_attributes(view)?;
            Ok(Change::PutAttributes)
        }
        (View::OnRollouts(view), command) => Ok(Change::OnRollouts(check_rollout(view, command)?)),
        (_, _) => Err(Refusal::WrongState),
    }
}

/// The verdict on a command: its change where it is accepted, and otherwise the first refusal that applies. Takes no
/// memory.
pub fn check(view: &View, command: &Command) -> Result<Change, Refusal>
    ensures decides { Decides view.now (command_of command.now) result }
    ensures follows { Follows view.now (command_of command.now) result }
{
    decide(view, command)
}
