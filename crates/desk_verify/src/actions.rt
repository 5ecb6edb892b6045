//! The check of the table of actions.

ghost use Rattle.std.specs.Prelude.{◌≡◌, option_map, vec_items};
ghost use Rattle.desk_records.specs.Schema as schema;
ghost use Rattle.desk_records.specs.Schema.{Actions};
ghost use Rattle.desk_store.specs.Blaming.{BlamesGiven, ReadsOf};
ghost use Rattle.desk_store.specs.Changing.{FindsTables, StaysIn};
ghost use Rattle.desk_verify.specs.ActionChecks.{AreMembersInTurn, AreActionsWhole, ListsActions, count_none};
ghost use Rattle.desk_verify.specs.Actions.{AgreesActions, IsRightAction, PassesActions};
ghost use Rattle.desk_verify.specs.Agreement.{Settles};
ghost use Rattle.desk_verify.specs.Checking.{ChecksActions};
ghost use Rattle.desk_verify.specs.private.RolloutChecks.{IsGoneThrough};

use crate::histories::fit_histories;
use crate::rollouts::{ByRollout, NumberedRollout, check_rollouts};
use crate::turns::{are_for, count_on, numbers_rise};
use desk_store::{
    Calls, Fault, ListedAction, PlacedMember, count_actions, list_all_actions, list_places,
};
use rollout_model::RolloutNo;
use sqlite::Alter;

struct Actions;

impl<S: Alter> ByRollout<S> for Actions {
    ghost table = { Actions };

    ghost column = { 2 };

    ghost is_right = { IsRightAction };

    ghost is_whole = { AreActionsWhole };

    ghost agrees = { AgreesActions };

    ghost given = { ChecksActions };

    fn check_rollout(
        calls: &mut Calls<S>,
        rollout: &NumberedRollout,
    ) -> Result<Option<usize>, Fault> {
        let Some(actions) = actions_of(calls, rollout.number)? else {
            return Ok(None);
        };
        if !rollout.rollout.started {
            return Ok(count_none(&actions));
        }
        let members = members_of(calls, rollout.number)?;
        if !are_for(&members, &actions) {
            return Ok(None);
        }
        let fit = fit_histories(calls, &actions)?;
        Ok(fit.then_some(actions.len()))
    }
}

/// Whether the table of actions agrees. A number of their feedback that breaks a rule is `Broken`.
pub(crate) fn check_actions<S: Alter>(calls: &mut Calls<S>) -> Result<bool, Fault>
    ensures stays { StaysIn S.Store calls.old calls.new result }
    ensures judges { FindsTables S.Store calls.old calls.new result (λ t agrees. Settles (PassesActions t) (AgreesActions t) agrees) }
    ensures blames { BlamesGiven S.Store (IsGoneThrough schema.Actions ChecksActions) calls.old calls.new result }
{
    let Some(listed) = check_rollouts::<Actions, S>(calls)? else {
        return Ok(false);
    };
    let all = count_actions(calls)?;
    Ok(listed == all as usize)
}

/// How many actions a rollout has that isn't started, where it has none.
fn count_none(actions: &[ListedAction]) -> Option<usize>
    ensures { result ≡ count_none actions.now }
{
    if actions.is_empty() { Some(0) } else { None }
}

/// The actions of a rollout, where they keep the columns' rules. Two of one number are `Broken`.
fn actions_of<S: Alter>(
    calls: &mut Calls<S>,
    number: RolloutNo,
) -> Result<Option<Vec<ListedAction>>, Fault>
    ensures stays { StaysIn S.Store calls.old calls.new result }
    ensures reads { FindsTables S.Store calls.old calls.new result (λ t found. ListsActions t number (option_map vec_items found)) }
    ensures blames { BlamesGiven S.Store (ReadsOf schema.Actions) calls.old calls.new result }
{
    let Some(actions) = list_all_actions(calls, number)? else {
        return Ok(None);
    };
    if !numbers_rise(&actions) {
        return Err(Fault::Broken);
    }
    Ok(Some(actions))
}

/// The members of a rollout, whose table was judged before: a row that breaks a rule, and two at one place,
/// are `Broken`.
fn members_of<S: Alter>(calls: &mut Calls<S>, number: RolloutNo) -> Result<Vec<PlacedMember>, Fault>
    ensures stays { StaysIn S.Store calls.old calls.new result }
    ensures reads { FindsTables S.Store calls.old calls.new result (λ t members. AreMembersInTurn t number members.items) }
    ensures blames { BlamesGiven S.Store ChecksActions calls.old calls.new result }
{
    let Some(members) = list_places(calls, number)? else {
        return Err(Fault::Broken);
    };
    if !count_on(&members) {
        return Err(Fault::Broken);
    }
    Ok(members)
}
