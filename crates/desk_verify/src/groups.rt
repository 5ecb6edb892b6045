//! The check of the table of groups.

ghost use Rattle.desk_store.specs.Blaming.{BlamesGiven};
ghost use Rattle.desk_store.specs.Changing.{FindsTables, StaysIn};
ghost use Rattle.desk_records.specs.Schema as schema;
ghost use Rattle.desk_records.specs.Schema.{Groups};
ghost use Rattle.desk_verify.specs.Agreement.{SettlesWhether};
ghost use Rattle.desk_verify.specs.Checking.{ChecksGroups};
ghost use Rattle.desk_verify.specs.GroupChecks.{HasEach};
ghost use Rattle.desk_verify.specs.Groups.{AgreesGroups, IsInRollout};
ghost use Rattle.desk_verify.specs.private.RolloutChecks.{IsGoneThrough};

use crate::cuts::are_right;
use crate::groupings::read_grouping;
use crate::rollouts::{ByRollout, NumberedRollout, check_rollouts};
use desk_store::{Calls, Fault, count_groups, count_places, list_counted_actions, list_groups};
use sqlite::Alter;

struct Groups;

impl<S: Alter> ByRollout<S> for Groups {
    ghost table = { Groups };

    ghost column = { 1 };

    ghost is_right = { IsInRollout };

    ghost is_whole = { HasEach };

    ghost agrees = { AgreesGroups };

    ghost given = { ChecksGroups };

    fn check_rollout(
        calls: &mut Calls<S>,
        rollout: &NumberedRollout,
    ) -> Result<Option<usize>, Fault> {
        let grouping = read_grouping(calls, rollout)?;
        let members = count_places(calls, rollout.number)?;
        let Some(groups) = list_groups(calls, rollout.number)? else {
            return Ok(None);
        };
        let actions = list_counted_actions(calls, rollout.number)?;
        let Ok(right) = are_right(calls.alloc(), &groups, &actions, members, &grouping) else {
            return Err(Fault::Memory);
        };
        Ok(right.then_some(groups.len()))
    }
}

/// Whether the table of groups agrees.
pub(crate) fn check_groups<S: Alter>(calls: &mut Calls<S>) -> Result<bool, Fault>
    ensures stays { StaysIn S.Store calls.old calls.new result }
    ensures judges { FindsTables S.Store calls.old calls.new result (λ t agrees. SettlesWhether (AgreesGroups t) agrees) }
    ensures blames { BlamesGiven S.Store (IsGoneThrough schema.Groups ChecksGroups) calls.old calls.new result }
{
    let Some(listed) = check_rollouts::<Groups, S>(calls)? else {
        return Ok(false);
    };
    let all = count_groups(calls)?;
    Ok(listed == all as usize)
}
