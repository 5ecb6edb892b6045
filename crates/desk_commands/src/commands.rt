//! Commands, each a step inside a change.

ghost use Rattle.rollout_machine.specs.Views.{command_of};
ghost use Rattle.rollout_machine.specs.CommandRules.{IsWellFormed};
ghost use Rattle.desk_store.specs.Changing.{StaysIn};
ghost use Rattle.desk_commands.specs.Bounds.{AddsWithin};
ghost use Rattle.desk_commands.specs.Changing.{StepsIn};
ghost use Rattle.desk_commands.specs.Failures.{FailsStepIn};

use crate::actions::{cancel_action, take_cancel_feedback, take_feedback};
use crate::artifacts::add_artifact;
use crate::attributes::put_attributes;
use crate::creation::create_rollout;
use crate::modules::add_module;
use crate::progress::{Going, go_on};
use crate::sets::add_set;
use crate::standing::{Said, say};
use crate::starting::start_rollout;
use crate::step::Step;
use crate::tags::{tag_target, untag_target};
use crate::targets::put_targets;
use desk_store::{Calls, Fault};
use rollout_machine::command_is_well_formed;
use rollout_model::Command;
use sqlite::Alter;
use std::alloc::Global;

/// Runs a command inside a change.
pub fn take_step<S: Alter>(
    alloc: Global,
    calls: &mut Calls<S>,
    command: &Command,
) -> Result<Step, Fault>
    ensures stays { StaysIn S.Store calls.old calls.new result }
    ensures steps { StepsIn S.Store calls.old calls.new (command_of command.now) result }
    ensures fails { FailsStepIn S.Store calls.old calls.new result }
    ensures work { AddsWithin (command_of command.now) calls.old.work calls.new.work }
    ensures formed { IsWellFormed (command_of command.now) }
{
    command_is_well_formed(command);
    match command {
        Command::AddModule(label) => add_module(alloc, calls, label),
        Command::AddArtifact(upload) => add_artifact(calls, upload),
        Command::AddSet(label) => add_set(alloc, calls, label),
        Command::PutTargets(rows) => put_targets(calls, rows),
        Command::Tag(id, tag) => tag_target(calls, id, tag),
        Command::Untag(id, tag) => untag_target(calls, id, tag),
        Command::PutAttributes(device, given) => put_attributes(calls, device, given),
        Command::CreateRollout(plan) => create_rollout(alloc, calls, plan),
        Command::Approve(number) => say(calls, *number, Said::Approved),
        Command::Deny(number) => say(calls, *number, Said::Denied),
        Command::Start(number) => start_rollout(calls, *number),
        Command::Pause(number) => say(calls, *number, Said::Paused),
        Command::Resume(number) => go_on(calls, *number, Going::Resumed),
        Command::TriggerNext(number) => go_on(calls, *number, Going::Triggered),
        Command::Cancel(asked) => cancel_action(calls, asked),
        Command::Feedback(feedback) => take_feedback(alloc, calls, feedback),
        Command::CancelFeedback(feedback) => take_cancel_feedback(alloc, calls, feedback),
    }
}
