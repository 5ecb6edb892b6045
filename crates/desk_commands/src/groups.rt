//! Groups of a rollout: starting one.

ghost use Rattle.desk_store.specs.Counting.{AddsIn};
ghost use Rattle.desk_commands.specs.private.GroupStarts.{StartsAndOffers, StartsIf};
ghost use Rattle.desk_store.specs.Changing.{MakesLedger};
ghost use Rattle.desk_store.specs.Failing.{WritesIn};

use desk_store::{Calls, Fault, change_group, write_group_offers};
use rollout_machine::GroupRecord;
use rollout_model::RolloutNo;
use sqlite::Alter;

/// Starts a group that waits: each of its targets is offered its action there, unless it is offered a lesser one.
pub(crate) fn start_group<S: Alter>(
    calls: &mut Calls<S>,
    number: RolloutNo,
    group: &GroupRecord,
) -> Result<(), Fault>
    ensures stays { WritesIn S.Store calls.old calls.new result }
    ensures writes { MakesLedger S.Store calls.old calls.new result (StartsAndOffers number group.now) }
    ensures work { AddsIn 2 0 calls.old calls.new }
{
    change_group(
        calls,
        number,
        group.number,
        true,
        group.ok,
        group.bad,
        group.gone,
    )?;
    write_group_offers(calls, number, group.bounds)
}

/// Starts a group, if one is to start.
pub(crate) fn start_if<S: Alter>(
    calls: &mut Calls<S>,
    number: RolloutNo,
    group: &Option<GroupRecord>,
) -> Result<(), Fault>
    ensures stays { WritesIn S.Store calls.old calls.new result }
    ensures writes { MakesLedger S.Store calls.old calls.new result (StartsIf number group.now) }
    ensures work { AddsIn 2 0 calls.old calls.new }
{
    match group {
        Some(group) => start_group(calls, number, group),
        None => Ok(()),
    }
}
