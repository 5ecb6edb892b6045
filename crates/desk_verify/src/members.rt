//! The check of the table of members.

ghost use Rattle.desk_store.specs.Blaming.{BlamesGiven, ReadsOf};
ghost use Rattle.desk_store.specs.Changing.{FindsTables, StaysIn};
ghost use Rattle.desk_records.specs.Schema as schema;
ghost use Rattle.desk_records.specs.Schema.{Members};
ghost use Rattle.desk_verify.specs.Agreement.{SettlesWhether};
ghost use Rattle.desk_verify.specs.Members.{AgreesMembers, IsInPlace};
ghost use Rattle.desk_verify.specs.private.RolloutChecks.{IsGoneThrough};

use crate::places::are_in_place;
use crate::rollouts::{ByRollout, NumberedRollout, check_rollouts};
use desk_store::{Calls, Fault, count_members, list_places};
use sqlite::Alter;

struct Members;

impl<S: Alter> ByRollout<S> for Members {
    ghost table = { Members };

    ghost column = { 1 };

    ghost is_right = { IsInPlace };

    ghost is_whole = { λ t rollout. Unit };

    ghost agrees = { AgreesMembers };

    ghost given = { ReadsOf Members };

    fn check_rollout(
        calls: &mut Calls<S>,
        rollout: &NumberedRollout,
    ) -> Result<Option<usize>, Fault> {
        let Some(members) = list_places(calls, rollout.number)? else {
            return Ok(None);
        };
        Ok(are_in_place(&members).then_some(members.len()))
    }
}

/// Whether the table of members agrees.
pub(crate) fn check_members<S: Alter>(calls: &mut Calls<S>) -> Result<bool, Fault>
    ensures stays { StaysIn S.Store calls.old calls.new result }
    ensures judges { FindsTables S.Store calls.old calls.new result (λ t agrees. SettlesWhether (AgreesMembers t) agrees) }
    ensures blames { BlamesGiven S.Store (IsGoneThrough schema.Members (ReadsOf schema.Members)) calls.old calls.new result }
{
    let Some(listed) = check_rollouts::<Members, S>(calls)? else {
        return Ok(false);
    };
    let all = count_members(calls)?;
    Ok(listed == all as usize)
}
