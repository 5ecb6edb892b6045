//! What is told of an action: its history's new entry, and the number that the entry bears.

ghost use Rattle.std.specs.Prelude.{◌+◌};
ghost use Rattle.desk_commands.specs.private.Counts.{CountsTo};
ghost use Rattle.desk_commands.specs.private.Telling.{WritesNumber, WritesTold, entries_by, if_numbered, notes_by, number_told, numbers_told};
ghost use Rattle.desk_store.specs.Counting.{AddsIn};
ghost use Rattle.desk_store.specs.Changing.{MakesLedger};
ghost use Rattle.desk_store.specs.Failing.{WritesIn};

use crate::counts::{Counts, more_if, one_more};
use desk_store::{Calls, Fault, NewEntry, PlacedNumber, write_entry};
use rollout_model::ActionNo;
use sqlite::Alter;

/// What is told of an action.
#[derive(Drop)]
pub(crate) struct Told {
    pub(crate) entry: NewEntry,
    /// How many numbers the action has before, where the entry bears one.
    pub(crate) numbers: u32,
}

/// How many notes there are with what was told.
pub(crate) fn notes_with(notes: u32, told: &Option<Told>) -> Result<u32, Fault>
    ensures { CountsTo (notes_by told.now notes) result }
{
    match told {
        Some(told) => more_if(told.entry.is_note, notes),
        None => Ok(notes),
    }
}

/// How many entries there are with what was told.
pub(crate) fn entries_with(entries: u32, told: &Option<Told>) -> Result<u32, Fault>
    ensures { CountsTo (entries_by told.now entries) result }
{
    match told {
        Some(_) => one_more(entries),
        None => Ok(entries),
    }
}

/// How many numbers there are with that of what was told, or 0 where it bears none.
pub(crate) fn numbers_with(told: &Option<Told>) -> Result<u32, Fault>
    ensures { CountsTo (numbers_told told.now) result }
{
    match told {
        Some(told) => match told.entry.number {
            Some(_) => one_more(told.numbers),
            None => Ok(0),
        },
        None => Ok(0),
    }
}

/// Adds the number of what was told to those of the action, where it bears one. Its entry is the last one.
fn write_number<S: Alter>(
    calls: &mut Calls<S>,
    action: ActionNo,
    counts: &Counts,
    told: &Told,
) -> Result<(), Fault>
    ensures stays { WritesIn S.Store calls.old calls.new result }
    ensures writes { MakesLedger S.Store calls.old calls.new result (WritesNumber action counts.now told.now) }
    ensures work { AddsIn (if_numbered told.now.entry.number 1) 0 calls.old calls.new }
{
    match told.entry.number {
        Some(number) => {
            let it = PlacedNumber {
                sequence: counts.entries,
                number,
            };
            desk_store::write_number(calls, action, counts.numbers, &it)
        }
        None => Ok(()),
    }
}

/// Adds what was told to the history of an action, where something was, as its last entry, and its number to those of the action.
pub(crate) fn write_told<S: Alter>(
    calls: &mut Calls<S>,
    action: ActionNo,
    counts: &Counts,
    told: &Option<Told>,
) -> Result<(), Fault>
    ensures stays { WritesIn S.Store calls.old calls.new result }
    ensures writes { MakesLedger S.Store calls.old calls.new result (WritesTold action counts.now told.now) }
    ensures work { AddsIn (1 + if_numbered (number_told told.now) 1) 0 calls.old calls.new }
{
    match told {
        Some(told) => {
            write_entry(calls, action, counts.entries, &told.entry)?;
            write_number(calls, action, counts, told)
        }
        None => Ok(()),
    }
}
