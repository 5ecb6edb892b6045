//! What one row is read as.

ghost use Rattle.std.specs.Prelude.{◌+◌, ◌≡◌, IfErr, IfOk, None, Some, false};
ghost use Rattle.sqlite_value.specs.Order.{Row, column};
ghost use Rattle.desk_records.specs.Codes.{number_in};
ghost use Rattle.desk_records.specs.Columns.{StoredBytes, StoredNumber, StoredText, has_bytes, has_number, has_word};
ghost use Rattle.desk_records.specs.EntryRow.{BreaksEntry, BreaksSequenced, IsEntryRow, IsSequencedRow};
ghost use Rattle.desk_store.specs.private.Rows.{IfBroken};

use desk_records::{
    RowFault, SequencedEntry, read_action_number, read_entry, read_member, read_piece,
    read_sequenced_entry, read_set_module, read_tag,
};
use rollout_model::{ActionNo, ControllerId, HistoryEntry, ModuleNo, Word};
use sqlite::Row;
use std::alloc::Global;

/// What is read of a row of its columns.
pub(crate) trait FromRow: Sized + Drop {
    ghost is_row: { Row → Self → Type 0 };

    // the row breaks a rule
    ghost is_broken: { Row → Type 0 };

    fn from_row(alloc: Global, row: &Row) -> Result<Self, RowFault>
        ensures ok { IfOk result (is_row row.now) }
        ensures err { IfErr result (λ fault. IfBroken fault (is_broken row.now)) };
}

/// Of a module's number.
impl FromRow for ModuleNo {
    ghost is_row = { λ row number. column row 0 ≡ StoredNumber number };

    ghost is_broken = { λ row. has_number (column row 0) ≡ false };

    fn from_row(_alloc: Global, row: &Row) -> Result<Self, RowFault> {
        read_set_module(row)
    }
}

/// Of an action's number.
impl FromRow for ActionNo {
    ghost is_row = { λ row number. number_in (column row 0) ≡ Some number };

    ghost is_broken = { λ row. number_in (column row 0) ≡ None };

    fn from_row(_alloc: Global, row: &Row) -> Result<Self, RowFault> {
        read_action_number(row)
    }
}

/// Of a piece's bytes.
impl FromRow for Vec<u8> {
    ghost is_row = { λ row bytes. column row 0 ≡ StoredBytes bytes.items };

    ghost is_broken = { λ row. has_bytes (column row 0) ≡ false };

    fn from_row(_alloc: Global, row: &Row) -> Result<Self, RowFault> {
        read_piece(row)
    }
}

/// Of a tag.
impl FromRow for Word {
    ghost is_row = { λ row tag. column row 0 ≡ StoredText tag };

    ghost is_broken = { λ row. has_word (column row 0) ≡ false };

    fn from_row(_alloc: Global, row: &Row) -> Result<Self, RowFault> {
        read_tag(row)
    }
}

/// Of a member's id.
impl FromRow for ControllerId {
    ghost is_row = { λ row id. column row 0 ≡ StoredText id };

    ghost is_broken = { λ row. has_word (column row 0) ≡ false };

    fn from_row(_alloc: Global, row: &Row) -> Result<Self, RowFault> {
        read_member(row)
    }
}

/// Of kind, word and details.
impl FromRow for HistoryEntry {
    ghost is_row = { IsEntryRow };

    ghost is_broken = { λ row. (c : _) × BreaksEntry row c };

    fn from_row(alloc: Global, row: &Row) -> Result<Self, RowFault> {
        read_entry(alloc, row)
    }
}

/// Of kind, word, details and sequence.
impl FromRow for SequencedEntry {
    ghost is_row = { IsSequencedRow };

    ghost is_broken = { λ row. (c : _) × BreaksSequenced row c };

    fn from_row(alloc: Global, row: &Row) -> Result<Self, RowFault> {
        read_sequenced_entry(alloc, row)
    }
}
