//! What is read of rows that are checked: each of them, or that one breaks a rule.

ghost use Rattle.std.specs.Prelude.{◌≡◌, Bool, IfErr, IfNone, IfOk, IfSome, None, false, option_map, true, vec_items};
ghost use Rattle.std.specs.Option.{is_none};
ghost use Rattle.sqlite_value.specs.Order.{Row};
ghost use Rattle.desk_records.specs.CheckedRows.{IsCheckedArtifactRow, IsOwnedOfferRow, is_too_long, keeps_action_rules, keeps_artifact_rules};
ghost use Rattle.desk_records.specs.CheckedRows.{keeps_offer_rules};
ghost use Rattle.desk_records.specs.Listings.{AreRead};
ghost use Rattle.desk_records.specs.MemberRow.{IsPlacedRow, keeps_member_rules};
ghost use Rattle.desk_records.specs.ReadRows.{broken_group_column};
ghost use Rattle.desk_store.specs.RawLists.{IsKeptActionRow, IsKeptGroupRow};
ghost use Rattle.desk_store.specs.private.Rows.{HasBroken, IfRowsBroken};

use desk_records::{
    CheckedArtifact, ListedAction, OwnedOffer, PlacedMember, is_too_long, read_checked_artifact,
    read_group, read_listed_action, read_owned_offer, read_placed_member,
};
use rollout_machine::GroupRecord;
use sql_calls::Fault;
use sqlite::Row;
use std::alloc::Global;

/// What is read of a row whose columns keep their rules: `None` where one breaks its own, `Broken` where one can't be read.
pub(crate) trait FromCheckedRow: Sized + Drop {
    ghost is_row: { Row → Self → Type 0 };

    ghost keeps_rules: { Row → Bool };

    // what is known of a row that can't be read
    ghost is_broken: { Row → Type 0 };

    fn from_checked_row(row: &Row) -> Result<Option<Self>, Fault>
        ensures some { IfOk result (λ found. IfSome found (is_row row.now)) }
        ensures none { IfOk result (λ found. IfNone found (keeps_rules row.now ≡ false)) }
        ensures err { IfErr result (λ fault. IfRowsBroken fault (is_broken row.now)) };
}

/// Of id and place.
impl FromCheckedRow for PlacedMember {
    ghost is_row = { IsPlacedRow };

    ghost keeps_rules = { keeps_member_rules };

    ghost is_broken = { λ row. ⊥ };

    fn from_checked_row(row: &Row) -> Result<Option<Self>, Fault> {
        Ok(read_placed_member(row))
    }
}

/// Of module, filename, size, digest and number.
impl FromCheckedRow for CheckedArtifact {
    ghost is_row = { IsCheckedArtifactRow };

    ghost keeps_rules = { keeps_artifact_rules };

    ghost is_broken = { λ row. ⊥ };

    fn from_checked_row(row: &Row) -> Result<Option<Self>, Fault> {
        Ok(read_checked_artifact(row))
    }
}

/// Of action, kind and id.
impl FromCheckedRow for OwnedOffer {
    ghost is_row = { IsOwnedOfferRow };

    ghost keeps_rules = { keeps_offer_rules };

    ghost is_broken = { λ row. ⊥ };

    fn from_checked_row(row: &Row) -> Result<Option<Self>, Fault> {
        Ok(read_owned_offer(row))
    }
}

/// Of number, first and last place, started and counts.
impl FromCheckedRow for GroupRecord {
    ghost is_row = { IsKeptGroupRow };

    ghost keeps_rules = { λ row. is_none (broken_group_column row) };

    ghost is_broken = { λ row. ⊥ };

    fn from_checked_row(row: &Row) -> Result<Option<Self>, Fault> {
        Ok(read_group(row).ok())
    }
}

/// Of all, its number at the end.
impl FromCheckedRow for ListedAction {
    ghost is_row = { IsKeptActionRow };

    ghost keeps_rules = { keeps_action_rules };

    ghost is_broken = { λ row. is_too_long row ≡ true };

    fn from_checked_row(row: &Row) -> Result<Option<Self>, Fault> {
        match read_listed_action(row) {
            Ok(action) => Ok(Some(action)),
            Err(_) if is_too_long(row) => Err(Fault::Broken),
            Err(_) => Ok(None),
        }
    }
}

/// What each row is read as, in order; `None` where one of them breaks a rule.
#[tactic(auto, using(crate::proofs::ReadLemmas::read_more))]
pub(crate) fn read_checked<T: FromCheckedRow>(
    alloc: Global,
    rows: &[Row],
) -> Result<Option<Vec<T>>, Fault>
    ensures ok { IfOk result (λ found. AreRead T.is_row T.keeps_rules rows.now (option_map vec_items found)) }
    ensures err { IfErr result (λ fault. IfRowsBroken fault (HasBroken T.is_broken rows.now)) }
{
    let mut found = Vec::new(alloc);
    for row in rows {
        let Some(one) = T::from_checked_row(row)? else {
            return Ok(None);
        };
        found.push(one)?;
    }
    Ok(Some(found))
}
