//! The rows of entries of histories.

ghost use Rattle.std.specs.Prelude.{◌≡◌, ◌⊎◌, IfOk, IfErr, IfSome, IfNone, MatchResult, Some, None, length, nat_eq, if◌then◌else◌};
ghost use Rattle.sqlite_value.specs.Order.{column};
ghost use Rattle.desk_records.specs.Actions.{lines_of};
ghost use Rattle.rollout_model.specs.Rules.{kept_if, are_details};
ghost use Rattle.desk_records.specs.EntryRow.{BreaksEntry, BreaksSequenced, HasNoDetails, IsEntryRow, IsSequencedRow};
ghost use Rattle.desk_records.specs.EntryRow.{broken_word, cancel_in, deployment_in, said_in};
ghost use Rattle.desk_records.specs.Columns.{StoredText};

use crate::artifact_row::number_at;
use crate::codes::flag_at;
use crate::module_row::RowFault;
use crate::table_columns::Column;
use rollout_model::limits::DETAIL_LIMIT;
use rollout_model::{CancelWord, DeploymentWord, Detail, Details, HistoryEntry, NoteWord, Said};
use sqlite::Row;
use sqlite_value::value::ValueRef;
use std::alloc::{AllocError, Global};
use std::str;

/// An entry with its place in the sequence of its action's history.
#[derive(Drop)]
pub struct SequencedEntry {
    pub sequence: u32,
    pub entry: HistoryEntry,
}

/// The entry in a row of kind, word and details.
pub fn read_entry(alloc: Global, row: &Row) -> Result<HistoryEntry, RowFault>
    ensures ok { IfOk result (IsEntryRow row.now) }
    ensures err { IfErr result (λ e. (e ≡ RowFault.Memory) ⊎ ((c : _) × (e ≡ RowFault.Broken c) × BreaksEntry row.now c)) }
{
    let said = said_at(row)?;
    let details = details_at(alloc, row, 2)?;
    Ok(HistoryEntry { said, details })
}

/// The entry in a row of kind, word, details and sequence.
pub fn read_sequenced_entry(alloc: Global, row: &Row) -> Result<SequencedEntry, RowFault>
    ensures ok { IfOk result (IsSequencedRow row.now) }
    ensures err { IfErr result (λ e. (e ≡ RowFault.Memory) ⊎ ((c : _) × (e ≡ RowFault.Broken c) × BreaksSequenced row.now c)) }
{
    let sequence = number_at(row, 3).ok_or(RowFault::Broken(Column::EntrySequence))?;
    let entry = read_entry(alloc, row)?;
    Ok(SequencedEntry { sequence, entry })
}

/// What is said by kind and word.
fn said_at(row: &Row) -> Result<Said, RowFault>
    ensures { MatchResult result
        (λ said. said_in row.now ≡ Some said)
        (λ e. (c : _) × (e ≡ RowFault.Broken c) × (broken_word row.now ≡ Some c)) }
{
    let is_of_cancel = flag_at(row, 0).ok_or(RowFault::Broken(Column::EntryKind))?;
    if is_of_cancel {
        let word = cancel_word_at(row, 1).ok_or(RowFault::Broken(Column::EntryWord))?;
        return Ok(Said::Cancel(word));
    }
    let word = deployment_word_at(row, 1).ok_or(RowFault::Broken(Column::EntryWord))?;
    Ok(Said::Deployment(word))
}

/// The word on a deployment.
fn deployment_word_at(row: &Row, at: usize) -> Option<DeploymentWord>
    ensures { result ≡ deployment_in (column row.now at) }
{
    match number_at(row, at) {
        Some(0) => Some(DeploymentWord::Noted(NoteWord::Proceeding)),
        Some(1) => Some(DeploymentWord::Noted(NoteWord::Scheduled)),
        Some(2) => Some(DeploymentWord::Noted(NoteWord::Resumed)),
        Some(3) => Some(DeploymentWord::Succeeded),
        Some(4) => Some(DeploymentWord::Failed),
        Some(5) => Some(DeploymentWord::Rejected),
        _ => None,
    }
}

/// The word on a cancel.
fn cancel_word_at(row: &Row, at: usize) -> Option<CancelWord>
    ensures { result ≡ cancel_in (column row.now at) }
{
    match number_at(row, at) {
        Some(0) => Some(CancelWord::Noted(NoteWord::Proceeding)),
        Some(1) => Some(CancelWord::Noted(NoteWord::Scheduled)),
        Some(2) => Some(CancelWord::Noted(NoteWord::Resumed)),
        Some(3) => Some(CancelWord::Closed),
        Some(4) => Some(CancelWord::Canceled),
        Some(5) => Some(CancelWord::Rejected),
        _ => None,
    }
}

/// The details of a column.
fn details_at(alloc: Global, row: &Row, at: usize) -> Result<Details, RowFault>
    ensures ok { IfOk result (λ details. column row.now at ≡ StoredText (lines_of details)) }
    ensures err { IfErr result (λ e. (e ≡ RowFault.Memory) ⊎ ((e ≡ RowFault.Broken Column.EntryDetails) × HasNoDetails (column row.now at))) }
{
    let broken = RowFault::Broken(Column::EntryDetails);
    let Ok(ValueRef::Text(text)) = row.get_ref(at) else {
        return Err(broken);
    };
    let Ok(text) = str::from_utf8(text) else {
        return Err(broken);
    };
    match read_lines(alloc, text) {
        Ok(Some(details)) => Ok(details),
        Ok(None) => Err(broken),
        Err(_) => Err(RowFault::Memory),
    }
}

/// The lines of a text, each ended by a line feed; `None` where they are no details.
fn read_lines(alloc: Global, text: &str) -> Result<Option<Details>, AllocError>
    ensures some { IfOk result (λ found. IfSome found (λ details. lines_of details ≡ text.now)) }
    ensures none { IfOk result (λ found. IfNone found (HasNoDetails (StoredText text.now))) }
{
    let mut lines = Vec::new(alloc);
    let mut rest = text;
    for _ in 0..DETAIL_LIMIT {
        let Some((line, more)) = rest.split_once('\n') else {
            return Ok(details_of(lines, rest));
        };
        let Some(line) = Detail::read(alloc, line)? else {
            return Ok(None);
        };
        lines.push(line)?;
        rest = more;
    }
    Ok(details_of(lines, rest))
}

/// The lines as details, where nothing is left.
fn details_of(lines: Vec<Detail>, rest: &str) -> Option<Details>
    ensures { result ≡ (if nat_eq (length rest.now) 0 then kept_if are_details lines.items else None) }
{
    if !rest.is_empty() {
        return None;
    }
    Details::from_lines(lines)
}
