//! The row of the desk itself.

ghost use Rattle.std.specs.Prelude.{◌≡◌, IfOk, IfErr, None, Some};
ghost use Rattle.sqlite_value.specs.Order.{column};
ghost use Rattle.desk_records.specs.Codes.{flag_in};

use crate::codes::flag_at;
use crate::module_row::RowFault;
use crate::table_columns::Column;
use sqlite::Row;

/// Whether rollouts wait for approval, in the row of format, version and approval. Takes no memory.
pub fn read_approval(row: &Row) -> Result<bool, RowFault>
    ensures ok { IfOk result (λ approval. flag_in (column row.now 2) ≡ Some approval) }
    ensures err { IfErr result (λ e. (e ≡ RowFault.Broken Column.DeskApproval) × (flag_in (column row.now 2) ≡ None)) }
{
    flag_at(row, 2).ok_or(RowFault::Broken(Column::DeskApproval))
}
