//! Rollouts: starting one.

ghost use Rattle.std.specs.Prelude.{◌≡◌, ◌≤◌, ◌<◌, ◌+◌, MatchResult, slice_get};
ghost use Rattle.std.specs.Option.{ok_or};
ghost use Rattle.sql_calls.specs.declared.fault.Fault.TheVariants.{Broken};
ghost use Rattle.rollout_machine.specs.Commands.{Start};
ghost use Rattle.desk_commands.specs.private.Standings.{JudgesCommand};
ghost use Rattle.desk_commands.specs.private.Starts.{StartsWhole};
ghost use Rattle.desk_store.specs.Changing.{MakesLedger, StaysIn};
ghost use Rattle.desk_commands.specs.Changing.{StepsIn};
ghost use Rattle.desk_commands.specs.Failures.{FailsStepIn};
ghost use Rattle.desk_store.specs.Counting.{AddsIn, RunsIn};
ghost use Rattle.desk_store.specs.Failing.{WritesIn};

use crate::groups::start_group;
use crate::standing::refusal_in;
use crate::step::Step;
use campaign_core::{StandingView, start};
use desk_reads::{SeenRollout, read_seen_rollout};
use desk_store::{Calls, Fault, change_rollout, read_last_action, write_actions};
use rollout_machine::GroupRecord;
use rollout_model::limits::NUMBER_LIMIT;
use rollout_model::{Refusal, Reply, RolloutNo};
use sqlite::Alter;

/// Why a rollout can't be started, if it can't.
fn start_refusal(seen: &SeenRollout) -> Option<Refusal>
    ensures { JudgesCommand Start seen.now result }
{
    let view = StandingView {
        word: Some(seen.word()),
    };
    refusal_in(start(&view))
}

/// Writes that a rollout is started: an action for each member, and its first group.
fn write_start<S: Alter>(
    calls: &mut Calls<S>,
    number: RolloutNo,
    seen: &SeenRollout,
    first: &GroupRecord,
) -> Result<(), Fault>
    ensures stays { WritesIn S.Store calls.old calls.new result }
    ensures writes { MakesLedger S.Store calls.old calls.new result (StartsWhole number seen.now first.now) }
    ensures work { AddsIn 4 0 calls.old calls.new }
{
    change_rollout(calls, number, seen.approval, true, seen.paused)?;
    write_actions(calls, number)?;
    start_group(calls, number, first)
}

/// Where there are no numbers for so many further actions the store failed. `last` is the number of the last one that is there.
fn check_numbers(last: u32, more: u32) -> Result<(), Fault>
    ensures { MatchResult result
        (λ _. last + more ≤ 2147483647)
        (λ e. (e ≡ Broken) × (2147483647 < last + more)) }
{
    let left = NUMBER_LIMIT.checked_sub(last).ok_or(Fault::Broken)?;
    if more > left {
        return Err(Fault::Broken);
    }
    Ok(())
}

/// The first group of a rollout. Where it isn't there the store failed.
fn first_group(seen: &SeenRollout) -> Result<GroupRecord, Fault>
    ensures { result ≡ ok_or (slice_get seen.now.groups.items 0) Broken }
{
    seen.groups.first().copied().ok_or(Fault::Broken)
}

/// Starts a rollout that is ready: each member has an action from then on, and those of the first group are offered.
pub(crate) fn start_rollout<S: Alter>(
    calls: &mut Calls<S>,
    number: RolloutNo,
) -> Result<Step, Fault>
    ensures stays { StaysIn S.Store calls.old calls.new result }
    ensures steps { StepsIn S.Store calls.old calls.new (Start number) result }
    ensures fails { FailsStepIn S.Store calls.old calls.new result }
    ensures work { RunsIn 7 calls.old calls.new }
{
    let found = read_seen_rollout(calls, number)?;
    let Some(seen) = found else {
        return Ok(Step::Refused(Refusal::NotFound));
    };
    if let Some(refusal) = start_refusal(&seen) {
        return Ok(Step::Refused(refusal));
    }
    let last = read_last_action(calls)?;
    let first = first_group(&seen)?;
    check_numbers(last, seen.members())?;
    write_start(calls, number, &seen, &first)?;
    Ok(Step::Accepted(Reply::Done))
}
