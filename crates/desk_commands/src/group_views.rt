//! Groups as the rules of rollouts rest on them.

ghost use Rattle.std.specs.Prelude.{◌≡◌, MatchResult, Some};
ghost use Rattle.sql_calls.specs.declared.fault.Fault.TheVariants.{Broken};
ghost use Rattle.rollout_machine.specs.Groups.{size_of_bounds};
ghost use Rattle.desk_commands.specs.private.GroupViews.{EndsBeyond, view_by};

use crate::counts::one_more;
use desk_store::Fault;
use rollout_machine::{GroupRecord, GroupView};
use rollout_model::GroupRule;

/// How many members the group has. One that reaches beyond all numbers is `Broken`.
fn size_of(group: &GroupRecord) -> Result<u32, Fault>
    ensures { MatchResult result (λ size. size ≡ size_of_bounds group.now.bounds) (λ e. (e ≡ Broken) × EndsBeyond (Some group.now)) }
{
    let end = one_more(group.bounds.last)?;
    Ok(end.saturating_sub(group.bounds.first))
}

/// A group of this number as the rules rest on it, by what is said of it: one of no members where there is none.
pub(crate) fn group_view(
    rule: &GroupRule,
    number: u32,
    group: Option<GroupRecord>,
) -> Result<GroupView, Fault>
    ensures { MatchResult result (λ view. view ≡ view_by rule.now number group) (λ e. (e ≡ Broken) × EndsBeyond group) }
{
    let success = rule.success.get();
    let error = rule.error.get();
    match group {
        Some(group) => {
            let size = size_of(&group)?;
            Ok(GroupView {
                number,
                size,
                ok: group.ok,
                bad: group.bad,
                success,
                error,
            })
        }
        None => Ok(GroupView {
            number,
            size: 0,
            ok: 0,
            bad: 0,
            success,
            error,
        }),
    }
}
