//! The rows of distribution sets.

ghost use Rattle.std.specs.Prelude.{◌≡◌, IfOk, IfErr, false};
ghost use Rattle.sqlite_value.specs.Order.{column};
ghost use Rattle.desk_records.specs.Columns.{StoredNumber, has_number};

use crate::artifact_row::number_at;
use crate::module_row::RowFault;
use crate::table_columns::Column;
use rollout_model::{ModuleNo, Text};
use sqlite::Row;

/// How a set is called: no two sets of a desk have the same name and version.
#[derive(Drop)]
pub struct SetName {
    pub name: Text,
    pub version: Text,
}

/// The number in a row of a module's number.
pub fn read_set_module(row: &Row) -> Result<ModuleNo, RowFault>
    ensures ok { IfOk result (λ number. column row.now 0 ≡ StoredNumber number) }
    ensures err { IfErr result (λ e. (e ≡ RowFault.Broken Column.SetModule) × (has_number (column row.now 0) ≡ false)) }
{
    let broken = RowFault::Broken(Column::SetModule);
    let number = number_at(row, 0).ok_or(broken)?;
    ModuleNo::new(number).ok_or(broken)
}
