//! The histories of actions, in a change that is under way.

ghost use Rattle.std.specs.List.{list_all};
ghost use Rattle.std.specs.Prelude.{◌≡◌, None, drop, take, true};
ghost use Rattle.rollout_machine.specs.ByteStrings.{item_numbered};
ghost use Rattle.desk_records.specs.Actions.{history_of};
ghost use Rattle.desk_records.specs.EntryRow.{keeps_details};
ghost use Rattle.desk_records.specs.LedgerSteps.{AddsEntry};
ghost use Rattle.desk_store.specs.Changing.{FindsLedger, MakesLedger, StaysIn};
ghost use Rattle.desk_store.specs.Counting.{AddsIn, RunsIn};
ghost use Rattle.desk_store.specs.Failing.{FailsIn, WritesIn};

use crate::reading::{read_all, read_optional};
use crate::statements::{ask, first, run};
use desk_records::{LIST_ENTRIES, NewEntry, PUT_FEEDBACK};
use rollout_model::{ActionNo, HistoryEntry, Page};
use sql_calls::{Calls, Fault};
use sqlite::{Alter, params};

/// The history of an action, a page of it in its order. A row that breaks a column's rule is `Broken`.
pub fn read_entries<S: Alter>(
    calls: &mut Calls<S>,
    number: ActionNo,
    page: Page,
) -> Result<Vec<HistoryEntry>, Fault>
    ensures stays { StaysIn S.Store calls.old calls.new result }
    ensures reads { FindsLedger S.Store calls.old calls.new result
        (λ l found. list_all keeps_details (history_of (item_numbered l.records.actions number)) ≡ true
        → found.items ≡ take page.limit (drop page.offset (history_of (item_numbered l.records.actions number)))) }
    ensures fails { FailsIn S.Store calls.old calls.new result }
    ensures work { RunsIn 1 calls.old calls.new }
{
    let alloc = calls.alloc();
    let rows = ask(
        calls,
        LIST_ENTRIES,
        params![number.get(), page.limit, page.offset],
    )?;
    read_all(alloc, &rows)
}

/// The entry at a place of the sequence of an action's history, from 1. A row that breaks a column's rule is `Broken`.
pub fn read_entry<S: Alter>(
    calls: &mut Calls<S>,
    number: ActionNo,
    sequence: u32,
) -> Result<Option<HistoryEntry>, Fault>
    ensures stays { StaysIn S.Store calls.old calls.new result }
    ensures reads { FindsLedger S.Store calls.old calls.new result
        (λ l found. list_all keeps_details (history_of (item_numbered l.records.actions number)) ≡ true
        → found ≡ item_numbered (history_of (item_numbered l.records.actions number)) sequence) }
    ensures fails { FailsIn S.Store calls.old calls.new result }
    ensures work { AddsIn 1 1 calls.old calls.new }
{
    if sequence == 0 {
        return Ok(None);
    }
    let alloc = calls.alloc();
    let row = first(
        calls,
        LIST_ENTRIES,
        params![number.get(), 1_u32, sequence - 1],
    )?;
    read_optional(alloc, row)
}

/// Adds an entry to the history of an action that is there, at its next place. Its numbers of notes and entries stay.
pub fn write_entry<S: Alter>(
    calls: &mut Calls<S>,
    number: ActionNo,
    sequence: u32,
    entry: &NewEntry,
) -> Result<(), Fault>
    ensures stays { WritesIn S.Store calls.old calls.new result }
    ensures writes { MakesLedger S.Store calls.old calls.new result (AddsEntry number sequence entry.now) }
    ensures work { AddsIn 1 0 calls.old calls.new }
{
    run(
        calls,
        PUT_FEEDBACK,
        params![
            number.get(),
            sequence,
            entry.kind,
            entry.word,
            entry.details.as_str()
        ],
    )
}
