//! What follows from the outcome of an action: it is counted in its group, its rollout may pause, and the next group may start.

ghost use Rattle.std.specs.Prelude.{◌≡◌, ◌≤◌, ◌+◌, ◌^◌, MatchResult};
ghost use Rattle.sql_calls.specs.declared.fault.Fault.TheVariants.{Broken};
ghost use Rattle.rollout_machine.specs.RecordSteps.{counted};
ghost use Rattle.desk_commands.specs.private.Endings.{FollowsChange, FollowsSo, outcomes_after, outcomes_in, own_after};
ghost use Rattle.desk_store.specs.Counting.{AddsIn};
ghost use Rattle.desk_store.specs.Changing.{MakesLedger};
ghost use Rattle.desk_store.specs.Failing.{WritesIn};

use crate::counts::one_more;
use crate::groups::start_if;
use crate::seen_actions::SeenAction;
use campaign_core::{ActionChange, Following};
use desk_store::{Calls, Fault, change_group, change_rollout};
use rollout_machine::{GroupRecord, Outcome};
use sqlite::Alter;

/// The group with one more outcome. A count beyond all numbers is `Broken`.
fn counted(group: GroupRecord, outcome: Outcome) -> Result<GroupRecord, Fault>
    ensures { MatchResult result
        (λ after. after ≡ counted outcome group.number group)
        (λ e. (e ≡ Broken) × (2 ^ 32 ≤ outcomes_in outcome group + 1)) }
{
    match outcome {
        Outcome::Good => Ok(GroupRecord {
            ok: one_more(group.ok)?,
            ..group
        }),
        Outcome::Bad => Ok(GroupRecord {
            bad: one_more(group.bad)?,
            ..group
        }),
        Outcome::Gone => Ok(GroupRecord {
            gone: one_more(group.gone)?,
            ..group
        }),
    }
}

/// The group of an action, with its outcome counted where it ends.
pub(crate) fn own_after(seen: &SeenAction, after: &ActionChange) -> Result<GroupRecord, Fault>
    ensures { MatchResult result
        (λ own. own ≡ own_after seen.now after.now)
        (λ e. (e ≡ Broken) × (2 ^ 32 ≤ outcomes_after seen.now after.now)) }
{
    match after {
        ActionChange::StaysOpen { .. } => Ok(seen.own),
        ActionChange::Ends(ending) => counted(seen.own, ending.outcome),
    }
}

/// Writes what follows an outcome beside its count: a pause of the rollout, or the start of its next group, which then waits.
fn write_following<S: Alter>(
    calls: &mut Calls<S>,
    seen: &SeenAction,
    following: Following,
) -> Result<(), Fault>
    ensures stays { WritesIn S.Store calls.old calls.new result }
    ensures writes { MakesLedger S.Store calls.old calls.new result (FollowsSo seen.now following) }
    ensures work { AddsIn 2 0 calls.old calls.new }
{
    match following {
        Following::Nothing => Ok(()),
        Following::Pauses => {
            change_rollout(
                calls,
                seen.action.rollout,
                seen.approval,
                seen.started,
                true,
            )
        }
        Following::StartsNext => start_if(calls, seen.action.rollout, &seen.next),
    }
}

/// Writes what follows from what became of an action, whose group counts so much then.
pub(crate) fn follow<S: Alter>(
    calls: &mut Calls<S>,
    seen: &SeenAction,
    after: &ActionChange,
    own: &GroupRecord,
) -> Result<(), Fault>
    ensures stays { WritesIn S.Store calls.old calls.new result }
    ensures writes { own.now ≡ own_after seen.now after.now
        → MakesLedger S.Store calls.old calls.new result (FollowsChange seen.now after.now) }
    ensures work { AddsIn 3 0 calls.old calls.new }
{
    match after {
        ActionChange::StaysOpen { .. } => Ok(()),
        ActionChange::Ends(ending) => {
            let rollout = seen.action.rollout;
            change_group(
                calls,
                rollout,
                own.number,
                own.started,
                own.ok,
                own.bad,
                own.gone,
            )?;
            write_following(calls, seen, ending.following)
        }
    }
}
