//! Rows that are read to be checked: an artifact with its number, an offer with its target, an action as it is counted.

ghost use Rattle.std.specs.Prelude.{◌≡◌, IfNone, IfSome, Some, false};
ghost use Rattle.sqlite_value.specs.Order.{column};
ghost use Rattle.desk_records.specs.CheckedRows.{IsCheckedArtifactRow, IsOwnedOfferRow, counted_of, are_entries, is_too_long, is_wide, keeps_artifact_rules};
ghost use Rattle.desk_records.specs.CheckedRows.{keeps_offer_rules};

use crate::artifact_row::{StoredArtifact, number_at, own_number_at};
use crate::codes::outcome_at;
use crate::module_row::RowFault;
use crate::read_rows::{read_listed_action, read_offer, read_stored_artifact};
use crate::table_columns::Column;
use crate::target_row::id_at;
use rollout_machine::Outcome;
use rollout_model::{ArtifactNo, ControllerId, Offer};
use sqlite::Row;
use sqlite_value::value::ValueRef;

/// An artifact and its number.
#[derive(Clone, Copy)]
pub struct CheckedArtifact {
    pub number: ArtifactNo,
    pub artifact: StoredArtifact,
}

/// What a target is offered.
#[derive(Clone, Copy)]
pub struct OwnedOffer {
    pub id: ControllerId,
    pub offer: Offer,
}

/// What a group counts of an action.
#[derive(Clone, Copy)]
pub struct CountedAction {
    pub place: u32,
    pub outcome: Option<Outcome>,
}

/// The artifact in a row of module, filename, size, digest and number; `None` where a column breaks its rule. Takes no memory.
pub fn read_checked_artifact(row: &Row) -> Option<CheckedArtifact>
    ensures some { IfSome result (IsCheckedArtifactRow row.now) }
    ensures none { IfNone result (keeps_artifact_rules row.now ≡ false) }
{
    let Ok(artifact) = read_stored_artifact(row) else {
        return None;
    };
    let Ok(number) = own_number_at(row, 4, Column::ArtifactNumber) else {
        return None;
    };
    Some(CheckedArtifact { number, artifact })
}

/// The offer in a row of action, kind and id; `None` where a column breaks its rule. Takes no memory.
pub fn read_owned_offer(row: &Row) -> Option<OwnedOffer>
    ensures some { IfSome result (IsOwnedOfferRow row.now) }
    ensures none { IfNone result (keeps_offer_rules row.now ≡ false) }
{
    let Ok(offer) = read_offer(row) else {
        return None;
    };
    let Ok(id) = id_at(row, 2, Column::TargetId) else {
        return None;
    };
    Some(OwnedOffer { id, offer })
}

/// Whether a count of entries that is too large to be read is all that keeps the row of a listed action from being read. Takes no memory.
pub fn is_too_long(row: &Row) -> bool
    ensures { result ≡ is_too_long row.now }
{
    match read_listed_action(row) {
        Ok(_) => false,
        Err(fault) => is_wide_at(row, 6) && is_of_entries(fault),
    }
}

fn is_of_entries(fault: RowFault) -> bool
    ensures { (c : _) → fault ≡ RowFault.Broken c → result ≡ are_entries (Some c) }
{
    match fault {
        RowFault::Broken(column) => are_entries(column),
        RowFault::Memory => false,
    }
}

fn are_entries(column: Column) -> bool
    ensures { result ≡ are_entries (Some column) }
{
    matches!(column, Column::ActionEntries)
}

fn is_wide_at(row: &Row, at: usize) -> bool
    ensures { result ≡ is_wide (column row.now at) }
{
    match row.get_ref(at) {
        Ok(ValueRef::Int(number)) => number > i64::from(u32::MAX),
        _ => false,
    }
}

/// Place and outcome in the row of a listed action; `None` where one of both breaks its rule. Takes no memory.
pub fn read_counted_action(row: &Row) -> Option<CountedAction>
    ensures { result ≡ counted_of row.now }
{
    let place = number_at(row, 1)?;
    let outcome = outcome_at(row, 4)?;
    Some(CountedAction { place, outcome })
}
