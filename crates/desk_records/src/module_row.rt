//! Columns with a text, and why a row gives no record.

ghost use Rattle.std.specs.Prelude.{◌≡◌, ◌⊎◌, IfOk, IfErr, true, false};
ghost use Rattle.sqlite_value.specs.Order.{column};
ghost use Rattle.desk_records.specs.Columns.{StoredText, has_text};
ghost use Rattle.desk_records.specs.private.ModuleRow.{fault_at};
ghost use Rattle.desk_records.specs.RowFaults.{fault_of_row};

use crate::table_columns::Column;
use rollout_model::Text;
use sql_calls::Fault;
use sqlite::{Error, ErrorCode, Row};
use std::alloc::Global;

/// Why a row gives no record.
#[derive(Clone, Copy)]
pub enum RowFault {
    Memory,
    /// The first column that breaks its rule.
    Broken(Column),
}

/// What a row that gives no record makes of a call. One that breaks a rule is `Broken`.
pub fn fault_of_row(fault: RowFault) -> Fault
    ensures { result ≡ fault_of_row fault }
{
    match fault {
        RowFault::Memory => Fault::Memory,
        RowFault::Broken(_) => Fault::Broken,
    }
}

/// The text of a column, where it keeps the rule of names, kinds and versions.
pub(crate) fn text_at(
    alloc: Global,
    row: &Row,
    at: usize,
    at_column: Column,
) -> Result<Text, RowFault>
    ensures ok { IfOk result (λ text. column row.now at ≡ StoredText text) }
    ensures kept { IfOk result (λ text. has_text (column row.now at) ≡ true) }
    ensures err { IfErr result (λ e. (e ≡ RowFault.Memory) ⊎ ((e ≡ RowFault.Broken at_column) × (has_text (column row.now at) ≡ false))) }
{
    let text = match row.get::<String>(at) {
        Ok(text) => text,
        Err(error) => return Err(row_fault(error, at_column)),
    };
    match Text::read(alloc, text.as_str()) {
        Ok(Some(text)) => Ok(text),
        Ok(None) => Err(RowFault::Broken(at_column)),
        Err(_) => Err(RowFault::Memory),
    }
}

/// The fault that an error of a column is.
pub(crate) fn row_fault(error: Error, at_column: Column) -> RowFault
    ensures { result ≡ fault_at error at_column }
{
    match error {
        Error::SqliteFailure(ErrorCode::OutOfMemory) => RowFault::Memory,
        _ => RowFault::Broken(at_column),
    }
}
