//! The numbers that devices give entries of histories, in a change that is under way.

ghost use Rattle.std.specs.Prelude.{◌≡◌};
ghost use Rattle.desk_records.specs.FeedbackNumbers.{last_number, numbers_numbered};
ghost use Rattle.desk_records.specs.LedgerSteps.{AddsNumber};
ghost use Rattle.desk_records.specs.Listings.{AreSaid, has_at};
ghost use Rattle.desk_records.specs.Schema.{Numbers};
ghost use Rattle.desk_store.specs.Blaming.{BlamesGiven, ReadsOf};
ghost use Rattle.desk_store.specs.Changing.{FindsLedger, FindsTables, MakesLedger, StaysIn};
ghost use Rattle.desk_store.specs.Counting.{AddsIn, RunsIn};
ghost use Rattle.desk_store.specs.Failing.{FailsIn, WritesIn};
ghost use Rattle.desk_store.specs.RawLists.{SaysNumber};

use crate::reading::{last_number, read_all, read_optional};
use crate::statements::{ask, first, run};
use desk_records::{LAST_NUMBER, LIST_NUMBERS, LastNumber, PUT_NUMBER, PlacedNumber};
use rollout_model::ActionNo;
use sql_calls::{Calls, Fault};
use sqlite::{Alter, params};

/// The last number of an action, with its place among those of the action. A row that breaks a column's rule is `Broken`.
pub fn read_last_number<S: Alter>(
    calls: &mut Calls<S>,
    action: ActionNo,
) -> Result<Option<LastNumber>, Fault>
    ensures stays { StaysIn S.Store calls.old calls.new result }
    ensures reads { FindsLedger S.Store calls.old calls.new result (λ l found. found ≡ last_number (numbers_numbered l.numbers action)) }
    ensures fails { FailsIn S.Store calls.old calls.new result }
    ensures work { AddsIn 1 1 calls.old calls.new }
{
    let alloc = calls.alloc();
    let row = first(calls, LAST_NUMBER, params![action.get()])?;
    read_optional(alloc, row)
}

/// The numbers of an action, in the order of their places; none where there is no such action. Whatever rows there are, they are all that
/// the action has, and one that breaks a column's rule is `Broken`.
pub fn read_numbers<S: Alter>(
    calls: &mut Calls<S>,
    action: ActionNo,
) -> Result<Vec<PlacedNumber>, Fault>
    ensures stays { StaysIn S.Store calls.old calls.new result }
    ensures reads { FindsLedger S.Store calls.old calls.new result (λ l found. found.items ≡ numbers_numbered l.numbers action) }
    ensures tells { FindsTables S.Store calls.old calls.new result (λ t found. AreSaid (t Numbers) (has_at 1 action) SaysNumber found.items) }
    ensures fails { FailsIn S.Store calls.old calls.new result }
    ensures blames { BlamesGiven S.Store (ReadsOf Numbers) calls.old calls.new result }
    ensures work { RunsIn 1 calls.old calls.new }
{
    let alloc = calls.alloc();
    let rows = ask(calls, LIST_NUMBERS, params![action.get()])?;
    read_all(alloc, &rows)
}

/// Adds a number to those of an action that is there, at their next place.
pub fn write_number<S: Alter>(
    calls: &mut Calls<S>,
    action: ActionNo,
    place: u32,
    it: &PlacedNumber,
) -> Result<(), Fault>
    ensures stays { WritesIn S.Store calls.old calls.new result }
    ensures writes { MakesLedger S.Store calls.old calls.new result (AddsNumber action place it.now) }
    ensures work { AddsIn 1 0 calls.old calls.new }
{
    run(
        calls,
        PUT_NUMBER,
        params![action.get(), place, it.sequence, it.number.get()],
    )
}
