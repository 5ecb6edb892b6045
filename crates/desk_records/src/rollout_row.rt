//! The rows of rollouts, of their groups, of actions and of offers.

ghost use Rattle.std.specs.Prelude.{◌≡◌, ◌⊎◌, IfOk, IfErr, None, Some, true, false};
ghost use Rattle.sqlite_value.specs.Order.{column};
ghost use Rattle.desk_records.specs.Codes.{number_in};
ghost use Rattle.desk_records.specs.Columns.{StoredText, has_filter};

use crate::codes::numbered_at;
use crate::module_row::{RowFault, row_fault};
use crate::table_columns::Column;
use rollout_machine::Outcome;
use rollout_model::{
    ActionNo, Approval, ControllerId, FilterText, GroupCount, Percentage, RolloutNo, SetNo, Text,
};
use sqlite::Row;
use std::alloc::Global;

/// What a rollout's row tells of its plan: all but what the plan says of single groups.
#[derive(Drop)]
pub struct ToldPlan {
    pub name: Text,
    pub set_number: SetNo,
    pub filter_text: FilterText,
    pub groups: GroupCount,
    pub success: Percentage,
    pub error: Percentage,
}

/// What is kept of a rollout beside its number, its members and its groups.
#[derive(Drop)]
pub struct StoredRollout {
    pub plan: ToldPlan,
    pub approval: Approval,
    pub started: bool,
    pub paused: bool,
}

/// What is kept of an action beside its number and its history.
#[derive(Clone, Copy)]
pub struct StoredAction {
    pub rollout: RolloutNo,
    /// Of its member, from 1.
    pub position: u32,
    pub target: ControllerId,
    pub canceling: bool,
    pub outcome: Option<Outcome>,
    /// How many notes its history has.
    pub notes: u32,
    /// How many entries its history has.
    pub entries: u32,
}

/// An action with its number.
#[derive(Clone, Copy)]
pub struct ListedAction {
    pub number: ActionNo,
    pub action: StoredAction,
}

/// The number in a row of an action's number.
pub fn read_action_number(row: &Row) -> Result<ActionNo, RowFault>
    ensures ok { IfOk result (λ number. number_in (column row.now 0) ≡ Some number) }
    ensures err { IfErr result (λ e. (e ≡ RowFault.Broken Column.ActionNumber) × (number_in (column row.now 0) ≡ None)) }
{
    numbered_at(row, 0).ok_or(RowFault::Broken(Column::ActionNumber))
}

/// The text of a filter in a column.
pub(crate) fn filter_at(
    alloc: Global,
    row: &Row,
    at: usize,
    at_column: Column,
) -> Result<FilterText, RowFault>
    ensures ok { IfOk result (λ filter. column row.now at ≡ StoredText filter) }
    ensures kept { IfOk result (λ filter. has_filter (column row.now at) ≡ true) }
    ensures err { IfErr result (λ e. (e ≡ RowFault.Memory) ⊎ ((e ≡ RowFault.Broken at_column) × (has_filter (column row.now at) ≡ false))) }
{
    let text = match row.get::<String>(at) {
        Ok(text) => text,
        Err(error) => return Err(row_fault(error, at_column)),
    };
    match FilterText::from_text(alloc, text.as_str()) {
        Ok(filter) => Ok(filter),
        Err(_) => Err(RowFault::Memory),
    }
}
