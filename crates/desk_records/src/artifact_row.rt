//! The rows of artifacts and of their pieces.

ghost use Rattle.std.specs.Prelude.{◌≡◌, ◌⊎◌, IfOk, IfErr, true, false};
ghost use Rattle.sqlite_value.specs.Order.{column};
ghost use Rattle.desk_records.specs.Columns.{StoredBytes, StoredNumber, StoredText, has_bytes, has_digest, has_filename, has_number, has_size, small_number};

use crate::module_row::{RowFault, row_fault};
use crate::table_columns::Column;
use rollout_model::{Digest, Filename, ModuleNo, Number};
use sqlite::Row;
use sqlite_value::value::ValueRef;
use std::str;

/// An artifact as it is found by its number, without its contents.
#[derive(Clone, Copy)]
pub struct StoredArtifact {
    pub module_number: ModuleNo,
    pub filename: Filename,
    /// In bytes.
    pub size: u32,
    /// By SHA-256 (FIPS 180-4).
    pub digest: Digest,
}

/// The bytes in a row of a piece.
pub fn read_piece(row: &Row) -> Result<Vec<u8>, RowFault>
    ensures ok { IfOk result (λ bytes. column row.now 0 ≡ StoredBytes bytes.items) }
    ensures err { IfErr result (λ e. (e ≡ RowFault.Memory) ⊎ ((e ≡ RowFault.Broken Column.PieceBytes) × (has_bytes (column row.now 0) ≡ false))) }
{
    match row.get::<Vec<u8>>(0) {
        Ok(bytes) => Ok(bytes),
        Err(error) => Err(row_fault(error, Column::PieceBytes)),
    }
}

/// The number of a module or of an artifact in a column.
pub(crate) fn own_number_at<Kind>(
    row: &Row,
    at: usize,
    at_column: Column,
) -> Result<Number<Kind>, RowFault>
    ensures ok { IfOk result (λ number. column row.now at ≡ StoredNumber number) }
    ensures kept { IfOk result (λ number. has_number (column row.now at) ≡ true) }
    ensures err { IfErr result (λ e. (e ≡ RowFault.Broken at_column) × (has_number (column row.now at) ≡ false)) }
{
    let broken = RowFault::Broken(at_column);
    let number = number_at(row, at).ok_or(broken)?;
    Number::new(number).ok_or(broken)
}

/// The filename in a column.
pub(crate) fn filename_at(row: &Row, at: usize, at_column: Column) -> Result<Filename, RowFault>
    ensures ok { IfOk result (λ filename. column row.now at ≡ StoredText filename) }
    ensures kept { IfOk result (λ filename. has_filename (column row.now at) ≡ true) }
    ensures err { IfErr result (λ e. (e ≡ RowFault.Broken at_column) × (has_filename (column row.now at) ≡ false)) }
{
    let broken = RowFault::Broken(at_column);
    let Ok(ValueRef::Text(text)) = row.get_ref(at) else {
        return Err(broken);
    };
    let Ok(text) = str::from_utf8(text) else {
        return Err(broken);
    };
    Filename::read(text).ok_or(broken)
}

/// The number of 32 bits in a column that has one.
pub(crate) fn size_at(row: &Row, at: usize, at_column: Column) -> Result<u32, RowFault>
    ensures ok { IfOk result (λ size. column row.now at ≡ StoredNumber size) }
    ensures kept { IfOk result (λ size. has_size (column row.now at) ≡ true) }
    ensures err { IfErr result (λ e. (e ≡ RowFault.Broken at_column) × (has_size (column row.now at) ≡ false)) }
{
    number_at(row, at).ok_or(RowFault::Broken(at_column))
}

/// The digest in a column.
pub(crate) fn digest_at(row: &Row, at: usize, at_column: Column) -> Result<Digest, RowFault>
    ensures ok { IfOk result (λ digest. column row.now at ≡ StoredBytes digest) }
    ensures kept { IfOk result (λ digest. has_digest (column row.now at) ≡ true) }
    ensures err { IfErr result (λ e. (e ≡ RowFault.Broken at_column) × (has_digest (column row.now at) ≡ false)) }
{
    let broken = RowFault::Broken(at_column);
    let Ok(ValueRef::Blob(bytes)) = row.get_ref(at) else {
        return Err(broken);
    };
    Digest::read(bytes).ok_or(broken)
}

/// The number of 32 bits in a column.
pub(crate) fn number_at(row: &Row, at: usize) -> Option<u32>
    ensures { result ≡ small_number (column row.now at) }
{
    match row.get_ref(at) {
        Ok(ValueRef::Int(number)) => u32::try_from(number).ok(),
        _ => None,
    }
}
