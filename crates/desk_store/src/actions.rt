//! Actions, in a change that is under way.

ghost use Rattle.std.specs.List.{last_or, zip};
ghost use Rattle.std.specs.Option.{option_map};
ghost use Rattle.std.specs.Prelude.{◌≡◌, None, drop, filter, length, map, nat_le, take, IfErr, IfOk, filter_map, pos, vec_items};
ghost use Rattle.rollout_machine.specs.ByteStrings.{item_numbered};
ghost use Rattle.desk_records.specs.FeedbackNumbers.{last_number};
ghost use Rattle.desk_records.specs.LedgerSteps.{AddsActions, SetsAction};
ghost use Rattle.desk_records.specs.RolloutRow.{actions_for, actions_of, ended_for, stored_action};
ghost use Rattle.desk_store.specs.Changing.{FindsLedger, KeepsTables, MakesLedger, StaysIn, FindsTables};
ghost use Rattle.desk_store.specs.Counting.{AddsIn, RunsIn};
ghost use Rattle.desk_store.specs.Failing.{FailsIn, WritesIn};
ghost use Rattle.std.specs.List.Sorted.{IsNonDecreasingBy};
ghost use Rattle.sqlite_trees.specs.Tree.{has_rowid};
ghost use Rattle.desk_records.specs.CheckedRows.{counted_of};
ghost use Rattle.desk_records.specs.CountedActions.{CountsAgree};
ghost use Rattle.desk_records.specs.Listings.{AreSaid, FindsOne, has_at};
ghost use Rattle.desk_records.specs.Schema.{Actions, Feedbacks};
ghost use Rattle.desk_store.specs.Blaming.{Blames, BlamesGiven, ReadsOf};
ghost use Rattle.desk_store.specs.RawLists.{AreActions, IsFoundInOrder, ListsRows, SaysAction, SaysEntry, SaysNumbered};
ghost use Rattle.desk_store.specs.private.Rows.{HasBroken, IfRowsBroken};

use crate::checked_row::read_checked;
use crate::codes::{code_of_outcome, flag_code};
use crate::reading::{counted_in, last_number, read_all, read_at, read_optional};
use crate::statements::{ask, few, first, run};
use desk_records::{
    COUNT_ACTIONS, CountedAction, GET_ACTION, LAST_ACTION, LAST_ENDED, LIST_ACTION_NUMBERS,
    LIST_ACTIONS, LIST_ENTRIES, LIST_TARGET_ACTIONS, ListedAction, PUT_ACTIONS, SET_ACTION,
    SequencedEntry, StoredAction, read_counted_action,
};
use rollout_machine::Outcome;
use rollout_model::{ActionNo, ControllerId, Page, RolloutNo};
use sql_calls::{Calls, Fault};
use sqlite::{Alter, Row, params};
use std::alloc::Global;

/// All that there are, as a LIMIT.
const ALL: i64 = -1;

/// The number of the last action, which is how many there are.
pub fn read_last_action<S: Alter>(calls: &mut Calls<S>) -> Result<u32, Fault>
    ensures stays { StaysIn S.Store calls.old calls.new result }
    ensures reads { FindsLedger S.Store calls.old calls.new result (λ l last. last ≡ length (zip l.records.actions l.tallies)) }
    ensures fails { FailsIn S.Store calls.old calls.new result }
    ensures work { AddsIn 1 1 calls.old calls.new }
{
    let row = first(calls, LAST_ACTION, &[])?;
    last_number(row)
}

/// The action of a number, without its history. A row that breaks a column's rule is `Broken`.
pub fn read_action<S: Alter>(
    calls: &mut Calls<S>,
    number: ActionNo,
) -> Result<Option<StoredAction>, Fault>
    ensures stays { StaysIn S.Store calls.old calls.new result }
    ensures keeps { KeepsTables S.Store calls.old calls.new result }
    ensures reads { FindsLedger S.Store calls.old calls.new result
        (λ l found. found ≡ option_map (stored_action l.records.rollouts) (item_numbered (zip l.records.actions l.tallies) number)) }
    ensures fails { FailsIn S.Store calls.old calls.new result }
    ensures work { AddsIn 1 1 calls.old calls.new }
{
    let alloc = calls.alloc();
    let row = first(calls, GET_ACTION, params![number.get()])?;
    read_optional(alloc, row)
}

/// The actions of a rollout, a page of them in the order of their numbers. A row that breaks a column's rule is `Broken`.
pub fn read_actions<S: Alter>(
    calls: &mut Calls<S>,
    number: RolloutNo,
    page: Page,
) -> Result<Vec<ListedAction>, Fault>
    ensures stays { StaysIn S.Store calls.old calls.new result }
    ensures reads { FindsLedger S.Store calls.old calls.new result
        (λ l found. found.items ≡ take page.limit (drop page.offset (actions_of l.records.rollouts number 1 (zip l.records.actions l.tallies)))) }
    ensures fails { FailsIn S.Store calls.old calls.new result }
    ensures work { RunsIn 1 calls.old calls.new }
{
    let alloc = calls.alloc();
    let rows = ask(
        calls,
        LIST_ACTIONS,
        params![number.get(), page.limit, page.offset],
    )?;
    read_all(alloc, &rows)
}

/// The numbers of all actions of a target, in their order. A row that breaks a column's rule is `Broken`.
pub fn read_action_numbers<S: Alter>(
    calls: &mut Calls<S>,
    id: &ControllerId,
) -> Result<Vec<ActionNo>, Fault>
    ensures stays { StaysIn S.Store calls.old calls.new result }
    ensures reads { FindsLedger S.Store calls.old calls.new result
        (λ l numbers. numbers.items ≡ map (λ (a : ListedAction). a.number) (actions_for l.records.rollouts id.now 1 (zip l.records.actions l.tallies))) }
    ensures fails { FailsIn S.Store calls.old calls.new result }
    ensures work { RunsIn 1 calls.old calls.new }
{
    let alloc = calls.alloc();
    let rows = ask(calls, LIST_ACTION_NUMBERS, params![id.as_str()])?;
    read_all(alloc, &rows)
}

/// The actions of a target from a number on, in the order of their numbers, and at most so many. A row that breaks a column's rule is
/// `Broken`.
pub fn read_target_actions<S: Alter>(
    calls: &mut Calls<S>,
    id: &ControllerId,
    from: ActionNo,
    limit: u32,
) -> Result<Vec<ListedAction>, Fault>
    ensures stays { StaysIn S.Store calls.old calls.new result }
    ensures reads { FindsLedger S.Store calls.old calls.new result (λ l found. found.items ≡
        take limit (filter (λ (a : ListedAction). nat_le from a.number) (actions_for l.records.rollouts id.now 1 (zip l.records.actions l.tallies)))) }
    ensures fails { FailsIn S.Store calls.old calls.new result }
    ensures work { RunsIn 1 calls.old calls.new }
{
    let alloc = calls.alloc();
    let rows = ask(
        calls,
        LIST_TARGET_ACTIONS,
        params![id.as_str(), from.get(), limit],
    )?;
    read_all(alloc, &rows)
}

/// The last of a target's actions that ended. A row that breaks a column's rule is `Broken`.
pub fn read_last_ended<S: Alter>(
    calls: &mut Calls<S>,
    id: &ControllerId,
) -> Result<Option<ListedAction>, Fault>
    ensures stays { StaysIn S.Store calls.old calls.new result }
    ensures reads { FindsLedger S.Store calls.old calls.new result
        (λ l found. found ≡ last_or None (ended_for l.records.rollouts id.now 1 (zip l.records.actions l.tallies))) }
    ensures fails { FailsIn S.Store calls.old calls.new result }
    ensures work { AddsIn 1 1 calls.old calls.new }
{
    let alloc = calls.alloc();
    let row = first(calls, LAST_ENDED, params![id.as_str()])?;
    read_optional(alloc, row)
}

/// Adds an action for each member of a rollout that is there, in the order of their places and numbered on from the last action: open, and
/// with no history.
pub fn write_actions<S: Alter>(calls: &mut Calls<S>, rollout: RolloutNo) -> Result<(), Fault>
    ensures stays { WritesIn S.Store calls.old calls.new result }
    ensures writes { MakesLedger S.Store calls.old calls.new result (AddsActions rollout) }
    ensures work { AddsIn 1 0 calls.old calls.new }
{
    run(calls, PUT_ACTIONS, params![rollout.get()])
}

/// Sets whether an action that is there is being cancelled, how it ended, and how many notes and entries its history has.
pub fn change_action<S: Alter>(
    calls: &mut Calls<S>,
    number: ActionNo,
    canceling: bool,
    outcome: Option<Outcome>,
    notes: u32,
    entries: u32,
) -> Result<(), Fault>
    ensures stays { WritesIn S.Store calls.old calls.new result }
    ensures writes { MakesLedger S.Store calls.old calls.new result (SetsAction number canceling outcome (record { notes = notes; entries = entries })) }
    ensures work { AddsIn 1 0 calls.old calls.new }
{
    let canceling_code = flag_code(canceling);
    let outcome_code = code_of_outcome(outcome);
    run(
        calls,
        SET_ACTION,
        params![number.get(), canceling_code, outcome_code, notes, entries],
    )
}

/// The actions in rows that keep the rules of place and outcome.
fn read_counted(alloc: Global, rows: &[Row]) -> Result<Vec<CountedAction>, Fault>
    ensures ok { IfOk result (λ found. found.items ≡ filter_map counted_of rows.now) }
    ensures err { IfErr result (λ fault. IfRowsBroken fault (HasBroken (λ row. ⊥) rows.now)) }
{
    let mut found = Vec::new(alloc);
    for row in rows {
        let Some(action) = read_counted_action(row) else {
            continue;
        };
        found.push(action)?;
    }
    Ok(found)
}

/// The action of a number, whatever rows there are. A row that breaks a column's rule is `Broken`, and so is a
/// second row of the number.
pub fn find_action<S: Alter>(
    calls: &mut Calls<S>,
    number: ActionNo,
) -> Result<Option<StoredAction>, Fault>
    ensures stays { StaysIn S.Store calls.old calls.new result }
    ensures reads { FindsTables S.Store calls.old calls.new result (λ t found. FindsOne (t Actions) (has_rowid (pos number)) SaysNumbered found) }
    ensures blames { BlamesGiven S.Store (λ reading. AreActions reading.tables × ReadsOf Actions reading) calls.old calls.new result }
    ensures work { AddsIn 1 1 calls.old calls.new }
{
    let alloc = calls.alloc();
    let Some(rows) = few(calls, GET_ACTION, params![number.get()], 1)? else {
        return Err(Fault::Broken);
    };
    read_at(alloc, &rows, 0)
}

/// The actions of a rollout, whatever rows there are; `None` where a row of it breaks a column's rule.
pub fn list_all_actions<S: Alter>(
    calls: &mut Calls<S>,
    number: RolloutNo,
) -> Result<Option<Vec<ListedAction>>, Fault>
    ensures stays { StaysIn S.Store calls.old calls.new result }
    ensures reads { FindsTables S.Store calls.old calls.new result
        (λ t found. ListsRows (t Actions) (has_at 2 number) SaysAction (option_map vec_items found)) }
    ensures order { FindsTables S.Store calls.old calls.new result (λ t found. IsFoundInOrder (λ a. a.number) (option_map vec_items found)) }
    ensures blames { BlamesGiven S.Store (ReadsOf Actions) calls.old calls.new result }
    ensures work { RunsIn 1 calls.old calls.new }
{
    let alloc = calls.alloc();
    let rows = ask(calls, LIST_ACTIONS, params![number.get(), ALL, 0_u32])?;
    read_checked(alloc, &rows)
}

/// The history of an action, whatever rows there are. A row of it that breaks a column's rule is `Broken`.
pub fn list_history<S: Alter>(
    calls: &mut Calls<S>,
    number: ActionNo,
) -> Result<Vec<SequencedEntry>, Fault>
    ensures stays { StaysIn S.Store calls.old calls.new result }
    ensures reads { FindsTables S.Store calls.old calls.new result (λ t found. AreSaid (t Feedbacks) (has_at 1 number) SaysEntry found.items) }
    ensures order { FindsTables S.Store calls.old calls.new result (λ t found. IsNonDecreasingBy (λ e. e.sequence) found.items) }
    ensures blames { BlamesGiven S.Store (ReadsOf Feedbacks) calls.old calls.new result }
    ensures work { RunsIn 1 calls.old calls.new }
{
    let alloc = calls.alloc();
    let rows = ask(calls, LIST_ENTRIES, params![number.get(), ALL, 0_u32])?;
    read_all(alloc, &rows)
}

/// The actions of a rollout as a count takes them, whatever rows there are: one that breaks the rule of its place or outcome is left out.
pub fn list_counted_actions<S: Alter>(
    calls: &mut Calls<S>,
    number: RolloutNo,
) -> Result<Vec<CountedAction>, Fault>
    ensures stays { StaysIn S.Store calls.old calls.new result }
    ensures reads { FindsTables S.Store calls.old calls.new result (λ t found. CountsAgree (t Actions) number found.items) }
    ensures blames { Blames S.Store calls.old calls.new result }
    ensures work { RunsIn 1 calls.old calls.new }
{
    let alloc = calls.alloc();
    let rows = ask(calls, LIST_ACTIONS, params![number.get(), ALL, 0_u32])?;
    read_counted(alloc, &rows)
}

/// How many rows the table of actions has.
pub fn count_actions<S: Alter>(calls: &mut Calls<S>) -> Result<u32, Fault>
    ensures stays { StaysIn S.Store calls.old calls.new result }
    ensures reads { FindsTables S.Store calls.old calls.new result (λ t count. count ≡ length (t Actions)) }
    ensures blames { BlamesGiven S.Store (ReadsOf Actions) calls.old calls.new result }
    ensures work { AddsIn 1 1 calls.old calls.new }
{
    let row = first(calls, COUNT_ACTIONS, &[])?;
    counted_in(row)
}
