//! The row of a member of a rollout.

ghost use Rattle.std.specs.Prelude.{◌≡◌, IfNone, IfSome, false};
ghost use Rattle.desk_records.specs.MemberRow.{IsPlacedRow, keeps_member_rules};

use crate::artifact_row::number_at;
use crate::target_row::read_member;
use rollout_model::ControllerId;
use sqlite::Row;

/// A member of a rollout at its place.
#[derive(Clone, Copy)]
pub struct PlacedMember {
    pub id: ControllerId,
    /// From 1.
    pub place: u32,
}

/// The member in a row of id and place; `None` where a column breaks its rule. Takes no memory.
pub fn read_placed_member(row: &Row) -> Option<PlacedMember>
    ensures some { IfSome result (IsPlacedRow row.now) }
    ensures none { IfNone result (keeps_member_rules row.now ≡ false) }
{
    let Ok(id) = read_member(row) else {
        return None;
    };
    let Some(place) = number_at(row, 1) else {
        return None;
    };
    Some(PlacedMember { id, place })
}
