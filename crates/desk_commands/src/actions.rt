//! Feedback on actions, and the cancels of actions.

ghost use Rattle.std.specs.Prelude.{◌≡◌, ◌+◌, cond, is_some};
ghost use Rattle.rollout_machine.specs.CommandRules.{IsWellFormed};
ghost use Rattle.rollout_machine.specs.Reports.{reported};
ghost use Rattle.rollout_machine.specs.Commands.{Cancel as CancelCommand, CancelFeedback, Feedback};
ghost use Rattle.desk_commands.specs.private.ActionSteps.{Acts, TellsAction, WritesFeedback};
ghost use Rattle.desk_commands.specs.private.ActionSteps.{canceling_by, outcome_by, stays_offered};
ghost use Rattle.desk_commands.specs.private.Offering.{MayReoffer};
ghost use Rattle.desk_commands.specs.private.Telling.{if_numbered, number_told};
ghost use Rattle.desk_commands.specs.Failures.{FailsStepIn, FailsWriting, Leads};
ghost use Rattle.desk_store.specs.Counting.{AddsIn, RunsIn};
ghost use Rattle.desk_store.specs.Changing.{MakesLedger, StaysIn};
ghost use Rattle.desk_commands.specs.Changing.{StepsIn};
ghost use Rattle.desk_commands.specs.private.Counts.{counts_after};
ghost use Rattle.desk_store.specs.Failing.{FailsSeeing, AreActionsNumbered, WritesIn};

use crate::counts::{Counts, counts_after};
use crate::endings::follow;
use crate::offering::offer_anew;
use crate::seen_actions::{SeenAction, cancel_view, device_action, see_feedback, see_target};
use crate::step::Step;
use crate::telling::{Told, write_told};
use campaign_core::{ActionChange, cancel, cancel_feedback, feedback, own_action};
use desk_store::{Calls, Fault, change_action, tell_entry};
use rollout_machine::Outcome;
use rollout_model::{Cancel, CancelWord, DeploymentWord, DeviceFeedback, Refusal, Reply, Said};
use sqlite::Alter;
use std::alloc::Global;

/// Whether the action is canceling after the change.
fn canceling_by(after: &ActionChange) -> bool
    ensures { result ≡ canceling_by after.now }
{
    match after {
        ActionChange::StaysOpen { canceling } => *canceling,
        ActionChange::Ends(_) => false,
    }
}

/// The outcome of the action after the change.
fn outcome_by(seen: &SeenAction, after: &ActionChange) -> Option<Outcome>
    ensures { result ≡ outcome_by seen.now.action.outcome after.now }
{
    match after {
        ActionChange::StaysOpen { .. } => seen.action.outcome,
        ActionChange::Ends(ending) => Some(ending.outcome),
    }
}

/// Writes what was told of an action, and what becomes of it.
fn tell_action<S: Alter>(
    calls: &mut Calls<S>,
    seen: &SeenAction,
    after: &ActionChange,
    told: &Option<Told>,
    counts: &Counts,
) -> Result<(), Fault>
    ensures stays { WritesIn S.Store calls.old calls.new result }
    ensures writes { counts.now ≡ counts_after seen.now after.now told.now
        → MakesLedger S.Store calls.old calls.new result (TellsAction seen.now after.now told.now) }
    ensures work { AddsIn (2 + if_numbered (number_told told.now) 1) 0 calls.old calls.new }
{
    let outcome = outcome_by(seen, after);
    write_told(calls, seen.number, counts, told)?;
    change_action(
        calls,
        seen.number,
        canceling_by(after),
        outcome,
        counts.notes,
        counts.entries,
    )
}

/// Whether its target is offered the action as before.
fn stays_offered(seen: &SeenAction, after: &ActionChange) -> bool
    ensures { result ≡ stays_offered seen.now.action.canceling after.now }
{
    match after {
        ActionChange::StaysOpen { canceling } => {
            if *canceling {
                seen.action.canceling
            } else {
                !seen.action.canceling
            }
        }
        ActionChange::Ends(_) => false,
    }
}

/// Looks up again what the target of an action is offered in its place, unless it is offered the action as before.
fn offer_next<S: Alter>(
    calls: &mut Calls<S>,
    seen: &SeenAction,
    after: &ActionChange,
) -> Result<(), Fault>
    ensures stays { StaysIn S.Store calls.old calls.new result }
    ensures writes { MakesLedger S.Store calls.old calls.new result
        (MayReoffer (stays_offered seen.now.action.canceling after.now) seen.now.action.target seen.now.number) }
    ensures fails { FailsSeeing S.Store AreActionsNumbered calls.old calls.new result }
    ensures work { AddsIn 2 1 calls.old calls.new }
{
    if stays_offered(seen, after) {
        return Ok(());
    }
    offer_anew(calls, &seen.action.target, seen.number)
}

/// Writes what becomes of an action, and all that follows: its target's offer is looked up again once the action is written
/// and before a group starts. What is counted then has room before anything is written.
fn act<S: Alter>(
    calls: &mut Calls<S>,
    seen: &SeenAction,
    after: &ActionChange,
    told: &Option<Told>,
) -> Result<(), Fault>
    ensures stays { StaysIn S.Store calls.old calls.new result }
    ensures writes { MakesLedger S.Store calls.old calls.new result (Acts seen.now after.now told.now) }
    ensures fails { FailsWriting S.Store (Leads (Acts seen.now after.now told.now)) calls.old calls.new result }
    ensures work { AddsIn (7 + if_numbered (number_told told.now) 1) 1 calls.old calls.new }
{
    let counts = counts_after(seen, after, told)?;
    tell_action(calls, seen, after, told, &counts)?;
    offer_next(calls, seen, after)?;
    follow(calls, seen, after, &counts.own)
}

/// Writes what becomes of an action by accepted feedback, where something does. `numbers` is how many the action has before. The memory
/// for the report is taken before anything is written.
fn write_feedback<S: Alter, W: Copy>(
    alloc: Global,
    calls: &mut Calls<S>,
    seen: &SeenAction,
    after: &Option<ActionChange>,
    numbers: u32,
    given: &DeviceFeedback<W>,
    said: Said,
) -> Result<(), Fault>
    ensures stays { StaysIn S.Store calls.old calls.new result }
    ensures writes { MakesLedger S.Store calls.old calls.new result
        (WritesFeedback seen.now after.now numbers (reported (λ word. said) given.now)) }
    ensures fails { FailsWriting S.Store (Leads (WritesFeedback seen.now after.now numbers (reported (λ word. said) given.now))) calls.old calls.new result }
    ensures work { AddsIn (cond (is_some after.now) (7 + if_numbered given.now.number 1) 0) (cond (is_some after.now) 1 0) calls.old calls.new }
{
    let Some(after) = after else {
        return Ok(());
    };
    let entry = tell_entry(alloc, said, &given.details, given.number)?;
    act(calls, seen, after, &Some(Told { entry, numbers }))
}

/// Takes feedback on a deployment.
pub(crate) fn take_feedback<S: Alter>(
    alloc: Global,
    calls: &mut Calls<S>,
    given: &DeviceFeedback<DeploymentWord>,
) -> Result<Step, Fault>
    ensures stays { StaysIn S.Store calls.old calls.new result }
    ensures steps { IsWellFormed (Feedback given.now) → StepsIn S.Store calls.old calls.new (Feedback given.now) result }
    ensures fails { IsWellFormed (Feedback given.now) → FailsStepIn S.Store calls.old calls.new result }
    ensures work { AddsIn (12 + if_numbered given.now.number 2) (7 + if_numbered given.now.number 1) calls.old calls.new }
{
    let said = Said::Deployment(given.word);
    let seen = see_feedback(calls, given, said)?;
    let report = seen.report;
    let action = match own_action(seen.misses_device, &seen.action) {
        Ok(action) => action,
        Err(refusal) => return Ok(Step::Refused(refusal)),
    };
    let after = match feedback(&device_action(&action, report.standing), given) {
        Ok(after) => after,
        Err(refusal) => return Ok(Step::Refused(refusal)),
    };
    write_feedback(alloc, calls, &action, &after, report.numbers, given, said)?;
    Ok(Step::Accepted(Reply::Done))
}

/// Takes feedback on the cancel of a deployment.
pub(crate) fn take_cancel_feedback<S: Alter>(
    alloc: Global,
    calls: &mut Calls<S>,
    given: &DeviceFeedback<CancelWord>,
) -> Result<Step, Fault>
    ensures stays { StaysIn S.Store calls.old calls.new result }
    ensures steps { IsWellFormed (CancelFeedback given.now) → StepsIn S.Store calls.old calls.new (CancelFeedback given.now) result }
    ensures fails { IsWellFormed (CancelFeedback given.now) → FailsStepIn S.Store calls.old calls.new result }
    ensures work { AddsIn (12 + if_numbered given.now.number 2) (7 + if_numbered given.now.number 1) calls.old calls.new }
{
    let said = Said::Cancel(given.word);
    let seen = see_feedback(calls, given, said)?;
    let report = seen.report;
    let action = match own_action(seen.misses_device, &seen.action) {
        Ok(action) => action,
        Err(refusal) => return Ok(Step::Refused(refusal)),
    };
    let after = match cancel_feedback(&device_action(&action, report.standing), given) {
        Ok(after) => after,
        Err(refusal) => return Ok(Step::Refused(refusal)),
    };
    write_feedback(alloc, calls, &action, &after, report.numbers, given, said)?;
    Ok(Step::Accepted(Reply::Done))
}

/// Cancels an action. A second cancel by force ends it.
pub(crate) fn cancel_action<S: Alter>(calls: &mut Calls<S>, asked: &Cancel) -> Result<Step, Fault>
    ensures stays { StaysIn S.Store calls.old calls.new result }
    ensures steps { IsWellFormed (CancelCommand asked.now.target asked.now.action asked.now.force)
        → StepsIn S.Store calls.old calls.new (CancelCommand asked.now.target asked.now.action asked.now.force) result }
    ensures fails { IsWellFormed (CancelCommand asked.now.target asked.now.action asked.now.force) → FailsStepIn S.Store calls.old calls.new result }
    ensures work { RunsIn 12 calls.old calls.new }
{
    let found = see_target(calls, &asked.target, asked.action)?;
    let Some(seen) = found else {
        return Ok(Step::Refused(Refusal::NotFound));
    };
    let after = match cancel(&cancel_view(&seen), asked) {
        Ok(after) => after,
        Err(refusal) => return Ok(Step::Refused(refusal)),
    };
    act(calls, &seen, &after, &None)?;
    Ok(Step::Accepted(Reply::Done))
}
