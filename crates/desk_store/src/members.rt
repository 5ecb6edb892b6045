//! The members of rollouts, in a change that is under way.

ghost use Rattle.std.specs.Prelude.{◌+◌, ◌≡◌, ◌∷◌, [], drop, take, length, IfOk, IfErr, filter, option_map, vec_items};
ghost use Rattle.sqlite.specs.Values.{bound};
ghost use Rattle.sql_calls.specs.declared.fault.Fault.TheVariants.{Memory};
ghost use Rattle.rollout_machine.specs.ByteStrings.{item_numbered};
ghost use Rattle.desk_records.specs.LedgerSteps.{AddsMembers};
ghost use Rattle.desk_records.specs.Rollouts.{members_given, members_of};
ghost use Rattle.desk_store.specs.Changing.{FindsLedger, MakesLedger, StaysIn, FindsTables};
ghost use Rattle.desk_store.specs.Counting.{AddsIn, RunsIn};
ghost use Rattle.desk_store.specs.Failing.{FailsIn, WritesIn};
ghost use Rattle.desk_records.specs.PlaceLists.{ListsPlaces, is_of};
ghost use Rattle.desk_records.specs.Schema.{Members};
ghost use Rattle.desk_store.specs.Blaming.{Blames, BlamesGiven, ReadsOf};

use crate::checked_row::read_checked;
use crate::reading::{counted_in, read_all, row_count};
use crate::statements::{ask, first, run};
use desk_records::{
    COUNT_MEMBERS, LIST_MEMBERS, LIST_PLACES, PUT_MEMBER, PUT_MEMBERS, PlacedMember,
};
use rollout_model::{ControllerId, Page, RolloutNo};
use sql_calls::{Calls, Fault};
use sqlite::types::{ToSql, ValueRef};
use sqlite::{Alter, params};
use std::alloc::Global;

/// The members of a rollout, a page of them in the order of their places; none where there is no such rollout. A row that breaks the
/// column's rule is `Broken`.
pub fn read_members<S: Alter>(
    calls: &mut Calls<S>,
    number: RolloutNo,
    page: Page,
) -> Result<Vec<ControllerId>, Fault>
    ensures stays { StaysIn S.Store calls.old calls.new result }
    ensures reads { FindsLedger S.Store calls.old calls.new result
        (λ l found. found.items ≡ take page.limit (drop page.offset (members_of (item_numbered l.records.rollouts number)))) }
    ensures fails { FailsIn S.Store calls.old calls.new result }
    ensures work { RunsIn 1 calls.old calls.new }
{
    let alloc = calls.alloc();
    let rows = ask(
        calls,
        LIST_MEMBERS,
        params![number.get(), page.offset, page.limit],
    )?;
    read_all(alloc, &rows)
}

/// Adds a member to a rollout that has no action yet, at its next place.
pub fn write_member<S: Alter>(
    calls: &mut Calls<S>,
    number: RolloutNo,
    place: u32,
    id: &ControllerId,
) -> Result<(), Fault>
    ensures stays { WritesIn S.Store calls.old calls.new result }
    ensures writes { MakesLedger S.Store calls.old calls.new result (AddsMembers number place (id.now ∷ [])) }
    ensures work { AddsIn 1 0 calls.old calls.new }
{
    run(calls, PUT_MEMBER, params![number.get(), place, id.as_str()])
}

/// Adds sixteen members to a rollout that has no action yet, at its next places, of which this is the first.
pub fn write_sixteen_members<S: Alter>(
    calls: &mut Calls<S>,
    number: RolloutNo,
    place: u32,
    ids: &[ControllerId; 16],
) -> Result<(), Fault>
    ensures stays { WritesIn S.Store calls.old calls.new result }
    ensures writes { MakesLedger S.Store calls.old calls.new result (AddsMembers number place ids.now) }
    ensures work { AddsIn 1 0 calls.old calls.new }
{
    let params = member_params(calls.alloc(), number, place, ids)?;
    run(calls, PUT_MEMBERS, &params)
}

/// What a statement is given of sixteen members from a place on.
fn member_params<'a>(
    alloc: Global,
    number: RolloutNo,
    place: u32,
    ids: &'a [ControllerId],
) -> Result<Vec<ValueRef<'a>>, Fault>
    requires { length ids.now ≡ 16 }
    ensures ok { IfOk result (λ params. bound params.items ≡ members_given number place ids.now) }
    ensures err { IfErr result (λ fault. fault ≡ Memory) }
{
    let mut params = Vec::new(alloc);
    params.push(number.get().to_sql())?;
    for (i, id) in ids.iter().enumerate() {
        params.push((i64::from(place) + i as i64).to_sql())?;
        params.push(id.as_str().to_sql())?;
    }
    Ok(params)
}

/// The members of a rollout in the order of their places, whatever rows there are; `None` where a row of it breaks a column's rule.
pub fn list_places<S: Alter>(
    calls: &mut Calls<S>,
    number: RolloutNo,
) -> Result<Option<Vec<PlacedMember>>, Fault>
    ensures stays { StaysIn S.Store calls.old calls.new result }
    ensures reads { FindsTables S.Store calls.old calls.new result (λ t found. ListsPlaces (t Members) number (option_map vec_items found)) }
    ensures blames { Blames S.Store calls.old calls.new result }
    ensures work { RunsIn 1 calls.old calls.new }
{
    let alloc = calls.alloc();
    let rows = ask(calls, LIST_PLACES, params![number.get()])?;
    read_checked(alloc, &rows)
}

/// How many rows of the table are of a rollout, whatever rows there are.
pub fn count_places<S: Alter>(calls: &mut Calls<S>, number: RolloutNo) -> Result<u32, Fault>
    ensures stays { StaysIn S.Store calls.old calls.new result }
    ensures reads { FindsTables S.Store calls.old calls.new result (λ t count. count ≡ length (filter (is_of number) (t Members))) }
    ensures blames { BlamesGiven S.Store (ReadsOf Members) calls.old calls.new result }
    ensures work { RunsIn 1 calls.old calls.new }
{
    let rows = ask(calls, LIST_PLACES, params![number.get()])?;
    row_count(&rows)
}

/// How many rows the table has.
pub fn count_members<S: Alter>(calls: &mut Calls<S>) -> Result<u32, Fault>
    ensures stays { StaysIn S.Store calls.old calls.new result }
    ensures reads { FindsTables S.Store calls.old calls.new result (λ t count. count ≡ length (t Members)) }
    ensures blames { BlamesGiven S.Store (ReadsOf Members) calls.old calls.new result }
    ensures work { AddsIn 1 1 calls.old calls.new }
{
    let row = first(calls, COUNT_MEMBERS, &[])?;
    counted_in(row)
}
