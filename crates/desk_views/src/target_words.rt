//! The words of targets: what their actions say of their software.

ghost use Rattle.std.specs.Prelude.{◌≡◌, true};
ghost use Rattle.rollout_machine.specs.StateWords.{target_word};
ghost use Rattle.campaign_core.specs.StatusWords.{target_word_from};
ghost use Rattle.desk_reads.specs.AtLists.{FailsAtListsIn};
ghost use Rattle.desk_views.specs.private.TargetWords.{ending_of, has_begun, is_begun, last_ended};
ghost use Rattle.desk_store.specs.Changing.{FindsIn, StaysIn};
ghost use Rattle.desk_store.specs.Counting.{RunsIn};

use campaign_core::{TargetStatus, target_word};
use desk_store::{Calls, Fault, StoredAction, read_holding_group, read_last_ended, read_offer};
use rollout_machine::Outcome;
use rollout_model::{ControllerId, TargetWord};
use sqlite::Alter;

/// The word of the target of an id: pending while one of its started actions is open, or else by the started one of the
/// greatest number.
pub(crate) fn read_target_word<S: Alter>(
    calls: &mut Calls<S>,
    id: &ControllerId,
) -> Result<TargetWord, Fault>
    ensures stays { StaysIn S.Store calls.old calls.new result }
    ensures reads { FindsIn S.Store calls.old calls.new result (λ now word. word ≡ target_word now id.now) }
    ensures fails { FailsAtListsIn S.Store calls.old calls.new result }
    ensures work { RunsIn 3 calls.old calls.new }
{
    let status = read_status(calls, id)?;
    Ok(target_word(&status))
}

/// What the word rests on. A target is offered its first started action that is open, so where it is offered nothing none is, and its
/// last started action is the last that ended.
fn read_status<S: Alter>(calls: &mut Calls<S>, id: &ControllerId) -> Result<TargetStatus, Fault>
    ensures stays { StaysIn S.Store calls.old calls.new result }
    ensures reads { FindsIn S.Store calls.old calls.new result (λ now status. target_word_from status ≡ target_word now id.now) }
    ensures fails { FailsAtListsIn S.Store calls.old calls.new result }
    ensures work { RunsIn 3 calls.old calls.new }
{
    if read_offer(calls, id)?.is_some() {
        return Ok(TargetStatus {
            any_open: true,
            last: None,
        });
    }
    let last = read_last_ending(calls, id)?;
    Ok(TargetStatus {
        any_open: false,
        last,
    })
}

/// How the last action of a target ended that did. Where its group isn't started the store has failed, since no other action ends.
fn read_last_ending<S: Alter>(
    calls: &mut Calls<S>,
    id: &ControllerId,
) -> Result<Option<Outcome>, Fault>
    ensures stays { StaysIn S.Store calls.old calls.new result }
    ensures reads { FindsIn S.Store calls.old calls.new result
        (λ now last. (has_begun now (last_ended now id.now) ≡ true) × (last ≡ ending_of (last_ended now id.now))) }
    ensures fails { FailsAtListsIn S.Store calls.old calls.new result }
    ensures work { RunsIn 2 calls.old calls.new }
{
    let Some(listed) = read_last_ended(calls, id)? else {
        return Ok(None);
    };
    if !read_is_begun(calls, &listed.action)? {
        return Err(Fault::Broken);
    }
    Ok(listed.action.outcome)
}

/// Whether the group of an action is started.
fn read_is_begun<S: Alter>(calls: &mut Calls<S>, action: &StoredAction) -> Result<bool, Fault>
    ensures stays { StaysIn S.Store calls.old calls.new result }
    ensures reads { FindsIn S.Store calls.old calls.new result (λ now begun. begun ≡ is_begun now action.now) }
    ensures fails { FailsAtListsIn S.Store calls.old calls.new result }
    ensures work { RunsIn 1 calls.old calls.new }
{
    match read_holding_group(calls, action.rollout, action.position)? {
        Some(group) => Ok(group.started),
        None => Ok(false),
    }
}
