//! The groups of rollouts, in a change that is under way.

ghost use Rattle.std.specs.Prelude.{◌≡◌, IfErr, IfOk, slice_get, length, option_map, vec_items};
ghost use Rattle.rollout_machine.specs.ByteStrings.{item_numbered};
ghost use Rattle.rollout_machine.specs.StateWords.{group_holding, group_numbered};
ghost use Rattle.desk_records.specs.LedgerSteps.{AddsGroup, SetsGroup};
ghost use Rattle.desk_records.specs.ReadRows.{IsGroupRow, broken_group_column};
ghost use Rattle.desk_records.specs.Rollouts.{groups_of};
ghost use Rattle.desk_store.specs.Changing.{FindsLedger, MakesLedger, StaysIn, FindsTables};
ghost use Rattle.desk_store.specs.Counting.{AddsIn, RunsIn};
ghost use Rattle.desk_store.specs.Failing.{FailsIn, WritesIn};
ghost use Rattle.desk_store.specs.GroupPairs.{group_and_next};
ghost use Rattle.desk_store.specs.private.Rows.{BreaksRule, HasBroken, IfRowsBroken, IsReadAs};
ghost use Rattle.desk_records.specs.Listings.{has_at};
ghost use Rattle.desk_records.specs.Schema.{Groups};
ghost use Rattle.desk_store.specs.Blaming.{Blames, BlamesGiven, ReadsOf};
ghost use Rattle.desk_store.specs.RawLists.{ListsRows, SaysGroup};

use crate::checked_row::read_checked;
use crate::codes::flag_code;
use crate::reading::{counted_in, read_all, read_at, read_optional};
use crate::statements::{ask, few, first, run};
use desk_records::{
    COUNT_GROUPS, GET_GROUP, GROUP_AND_NEXT, HOLDING_GROUP, LIST_GROUPS, PUT_GROUP, SET_GROUP,
};
use rollout_machine::{Bounds, GroupRecord};
use rollout_model::RolloutNo;
use sql_calls::{Calls, Fault};
use sqlite::{Alter, Row, params};
use std::alloc::Global;

/// The group of a rollout that has a place, and the one behind it.
#[derive(Clone, Copy)]
pub struct GroupAndNext {
    pub group: Option<GroupRecord>,
    pub next: Option<GroupRecord>,
}

/// The group in the first row, and the next one in the second.
fn read_both(alloc: Global, rows: &[Row]) -> Result<GroupAndNext, Fault>
    ensures ok { IfOk result (λ both. IsReadAs IsGroupRow both.group (slice_get rows.now 0) × IsReadAs IsGroupRow both.next (slice_get rows.now 1)) }
    ensures err { IfErr result (λ fault. IfRowsBroken fault (HasBroken (λ row. BreaksRule (broken_group_column row)) rows.now)) }
{
    let group = read_at(alloc, rows, 0)?;
    let next = read_at(alloc, rows, 1)?;
    Ok(GroupAndNext { group, next })
}

/// The groups of a rollout, in the order of their numbers, which are counted from 1; none where there is no such rollout. A row that
/// breaks a column's rule is `Broken`.
pub fn read_groups<S: Alter>(
    calls: &mut Calls<S>,
    number: RolloutNo,
) -> Result<Vec<GroupRecord>, Fault>
    ensures stays { StaysIn S.Store calls.old calls.new result }
    ensures reads { FindsLedger S.Store calls.old calls.new result (λ l groups. groups.items ≡ groups_of (item_numbered l.records.rollouts number)) }
    ensures fails { FailsIn S.Store calls.old calls.new result }
    ensures work { RunsIn 1 calls.old calls.new }
{
    let alloc = calls.alloc();
    let rows = ask(calls, LIST_GROUPS, params![number.get()])?;
    read_all(alloc, &rows)
}

/// The group of a rollout and a number. A row that breaks a column's rule is `Broken`.
pub fn read_group<S: Alter>(
    calls: &mut Calls<S>,
    number: RolloutNo,
    group: u32,
) -> Result<Option<GroupRecord>, Fault>
    ensures stays { StaysIn S.Store calls.old calls.new result }
    ensures reads { FindsLedger S.Store calls.old calls.new result
        (λ l found. found ≡ group_numbered group (groups_of (item_numbered l.records.rollouts number))) }
    ensures fails { FailsIn S.Store calls.old calls.new result }
    ensures work { AddsIn 1 1 calls.old calls.new }
{
    let alloc = calls.alloc();
    let row = first(calls, GET_GROUP, params![number.get(), group])?;
    read_optional(alloc, row)
}

/// The first group of a rollout that has a place. A row that breaks a column's rule is `Broken`.
pub fn read_holding_group<S: Alter>(
    calls: &mut Calls<S>,
    number: RolloutNo,
    place: u32,
) -> Result<Option<GroupRecord>, Fault>
    ensures stays { StaysIn S.Store calls.old calls.new result }
    ensures reads { FindsLedger S.Store calls.old calls.new result
        (λ l found. found ≡ group_holding place (groups_of (item_numbered l.records.rollouts number))) }
    ensures fails { FailsIn S.Store calls.old calls.new result }
    ensures work { AddsIn 1 1 calls.old calls.new }
{
    let alloc = calls.alloc();
    let row = first(calls, HOLDING_GROUP, params![number.get(), place])?;
    read_optional(alloc, row)
}

/// The group of a rollout that has a place, and the one behind it: the first two groups that reach the place. A row that breaks a
/// column's rule is `Broken`.
pub fn read_group_and_next<S: Alter>(
    calls: &mut Calls<S>,
    number: RolloutNo,
    place: u32,
) -> Result<GroupAndNext, Fault>
    ensures stays { StaysIn S.Store calls.old calls.new result }
    ensures reads { FindsLedger S.Store calls.old calls.new result
        (λ l found. found ≡ group_and_next place (groups_of (item_numbered l.records.rollouts number))) }
    ensures fails { FailsIn S.Store calls.old calls.new result }
    ensures work { AddsIn 1 2 calls.old calls.new }
{
    let alloc = calls.alloc();
    let Some(rows) = few(calls, GROUP_AND_NEXT, params![number.get(), place], 2)? else {
        return Err(Fault::Broken);
    };
    read_both(alloc, &rows)
}

/// Adds a group to a rollout, of its next number. It isn't started, and none of its actions ended.
pub fn write_group<S: Alter>(
    calls: &mut Calls<S>,
    number: RolloutNo,
    group: u32,
    bounds: Bounds,
) -> Result<(), Fault>
    ensures stays { WritesIn S.Store calls.old calls.new result }
    ensures writes { MakesLedger S.Store calls.old calls.new result (AddsGroup number group bounds) }
    ensures work { AddsIn 1 0 calls.old calls.new }
{
    run(
        calls,
        PUT_GROUP,
        params![number.get(), group, bounds.first, bounds.last],
    )
}

/// Sets whether a group that is there is started, and how many of its actions succeeded, failed and were given up.
pub fn change_group<S: Alter>(
    calls: &mut Calls<S>,
    number: RolloutNo,
    group: u32,
    started: bool,
    ok: u32,
    bad: u32,
    gone: u32,
) -> Result<(), Fault>
    ensures stays { WritesIn S.Store calls.old calls.new result }
    ensures writes { MakesLedger S.Store calls.old calls.new result (SetsGroup number group started ok bad gone) }
    ensures work { AddsIn 1 0 calls.old calls.new }
{
    let started_code = flag_code(started);
    run(
        calls,
        SET_GROUP,
        params![number.get(), group, started_code, ok, bad, gone],
    )
}

/// The groups of a rollout, whatever rows there are; `None` where a row of it breaks a column's rule.
pub fn list_groups<S: Alter>(
    calls: &mut Calls<S>,
    number: RolloutNo,
) -> Result<Option<Vec<GroupRecord>>, Fault>
    ensures stays { StaysIn S.Store calls.old calls.new result }
    ensures reads { FindsTables S.Store calls.old calls.new result
        (λ t found. ListsRows (t Groups) (has_at 1 number) (SaysGroup number) (option_map vec_items found)) }
    ensures blames { Blames S.Store calls.old calls.new result }
    ensures work { RunsIn 1 calls.old calls.new }
{
    let alloc = calls.alloc();
    let rows = ask(calls, LIST_GROUPS, params![number.get()])?;
    read_checked(alloc, &rows)
}

/// How many rows the table of groups has.
pub fn count_groups<S: Alter>(calls: &mut Calls<S>) -> Result<u32, Fault>
    ensures stays { StaysIn S.Store calls.old calls.new result }
    ensures reads { FindsTables S.Store calls.old calls.new result (λ t count. count ≡ length (t Groups)) }
    ensures blames { BlamesGiven S.Store (ReadsOf Groups) calls.old calls.new result }
    ensures work { AddsIn 1 1 calls.old calls.new }
{
    let row = first(calls, COUNT_GROUPS, &[])?;
    counted_in(row)
}
