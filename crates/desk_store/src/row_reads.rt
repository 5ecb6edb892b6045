//! Written by tools/gen/sql-proofs from rows.txt of desk_records. What it makes is proved; the tool is not trusted.
//! What rows are read as.

ghost use Rattle.desk_records.specs.ReadRows.{IsArtifactRow, IsAttributeRow, IsGroupRow, IsLastNumberRow, IsListedActionRow, IsListedTargetRow};
ghost use Rattle.desk_records.specs.ReadRows.{IsModuleLabelRow, IsNumberRow, IsOfferRow, IsOwnedAttributeRow, IsOwnedTagRow, IsRuleRow, IsSetNameRow};
ghost use Rattle.desk_records.specs.ReadRows.{IsStoredActionRow, IsStoredArtifactRow, IsStoredRolloutRow, IsStoredTargetRow, broken_artifact_column};
ghost use Rattle.desk_records.specs.ReadRows.{broken_attribute_column, broken_group_column, broken_last_number_column, broken_listed_action_column};
ghost use Rattle.desk_records.specs.ReadRows.{broken_listed_target_column, broken_module_label_column, broken_number_column, broken_offer_column};
ghost use Rattle.desk_records.specs.ReadRows.{broken_owned_attribute_column, broken_owned_tag_column, broken_rule_column, broken_set_name_column};
ghost use Rattle.desk_records.specs.ReadRows.{broken_stored_action_column, broken_stored_artifact_column, broken_stored_rollout_column};
ghost use Rattle.desk_records.specs.ReadRows.{broken_stored_target_column};
ghost use Rattle.desk_store.specs.private.Rows.{BreaksRule};

use crate::from_row::FromRow;
use desk_records::{
    LastNumber, ListedAction, ListedTarget, OwnedAttribute, OwnedTag, PlacedNumber, RowFault,
    SetName, StoredAction, StoredArtifact, StoredRollout, StoredTarget, read_artifact,
    read_attribute, read_group, read_last_number, read_listed_action, read_listed_target,
    read_module_label, read_number, read_offer, read_owned_attribute, read_owned_tag, read_rule,
    read_set_name, read_stored_action, read_stored_artifact, read_stored_rollout,
    read_stored_target,
};
use rollout_machine::GroupRecord;
use rollout_model::{Artifact, Attribute, GroupRule, ModuleLabel, Offer};
use sqlite::Row;
use std::alloc::Global;

/// Of name, type, version.
impl FromRow for ModuleLabel {
    ghost is_row = { IsModuleLabelRow };

    ghost is_broken = { λ row. BreaksRule (broken_module_label_column row) };

    fn from_row(alloc: Global, row: &Row) -> Result<Self, RowFault> {
        read_module_label(alloc, row)
    }
}

/// Of name, version.
impl FromRow for SetName {
    ghost is_row = { IsSetNameRow };

    ghost is_broken = { λ row. BreaksRule (broken_set_name_column row) };

    fn from_row(alloc: Global, row: &Row) -> Result<Self, RowFault> {
        read_set_name(alloc, row)
    }
}

/// Of module, filename, size, sha256.
impl FromRow for StoredArtifact {
    ghost is_row = { IsStoredArtifactRow };

    ghost is_broken = { λ row. BreaksRule (broken_stored_artifact_column row) };

    fn from_row(_alloc: Global, row: &Row) -> Result<Self, RowFault> {
        read_stored_artifact(row)
    }
}

/// Of number, filename, size, sha256.
impl FromRow for Artifact {
    ghost is_row = { IsArtifactRow };

    ghost is_broken = { λ row. BreaksRule (broken_artifact_column row) };

    fn from_row(_alloc: Global, row: &Row) -> Result<Self, RowFault> {
        read_artifact(row)
    }
}

/// Of name, digest.
impl FromRow for StoredTarget {
    ghost is_row = { IsStoredTargetRow };

    ghost is_broken = { λ row. BreaksRule (broken_stored_target_column row) };

    fn from_row(alloc: Global, row: &Row) -> Result<Self, RowFault> {
        read_stored_target(alloc, row)
    }
}

/// Of controller, name.
impl FromRow for ListedTarget {
    ghost is_row = { IsListedTargetRow };

    ghost is_broken = { λ row. BreaksRule (broken_listed_target_column row) };

    fn from_row(alloc: Global, row: &Row) -> Result<Self, RowFault> {
        read_listed_target(alloc, row)
    }
}

/// Of controller, tag.
impl FromRow for OwnedTag {
    ghost is_row = { IsOwnedTagRow };

    ghost is_broken = { λ row. BreaksRule (broken_owned_tag_column row) };

    fn from_row(_alloc: Global, row: &Row) -> Result<Self, RowFault> {
        read_owned_tag(row)
    }
}

/// Of key, value.
impl FromRow for Attribute {
    ghost is_row = { IsAttributeRow };

    ghost is_broken = { λ row. BreaksRule (broken_attribute_column row) };

    fn from_row(alloc: Global, row: &Row) -> Result<Self, RowFault> {
        read_attribute(alloc, row)
    }
}

/// Of controller, key, value.
impl FromRow for OwnedAttribute {
    ghost is_row = { IsOwnedAttributeRow };

    ghost is_broken = { λ row. BreaksRule (broken_owned_attribute_column row) };

    fn from_row(alloc: Global, row: &Row) -> Result<Self, RowFault> {
        read_owned_attribute(alloc, row)
    }
}

/// Of name, dset, filter_text, groups, success, error, approval, started, paused.
impl FromRow for StoredRollout {
    ghost is_row = { IsStoredRolloutRow };

    ghost is_broken = { λ row. BreaksRule (broken_stored_rollout_column row) };

    fn from_row(alloc: Global, row: &Row) -> Result<Self, RowFault> {
        read_stored_rollout(alloc, row)
    }
}

/// Of number, first_place, last_place, started, ok, bad, gone.
impl FromRow for GroupRecord {
    ghost is_row = { IsGroupRow };

    ghost is_broken = { λ row. BreaksRule (broken_group_column row) };

    fn from_row(_alloc: Global, row: &Row) -> Result<Self, RowFault> {
        read_group(row)
    }
}

/// Of rollout, place, controller, canceling, outcome, notes, entries.
impl FromRow for StoredAction {
    ghost is_row = { IsStoredActionRow };

    ghost is_broken = { λ row. BreaksRule (broken_stored_action_column row) };

    fn from_row(_alloc: Global, row: &Row) -> Result<Self, RowFault> {
        read_stored_action(row)
    }
}

/// Of rollout, place, controller, canceling, outcome, notes, entries, number.
impl FromRow for ListedAction {
    ghost is_row = { IsListedActionRow };

    ghost is_broken = { λ row. BreaksRule (broken_listed_action_column row) };

    fn from_row(_alloc: Global, row: &Row) -> Result<Self, RowFault> {
        read_listed_action(row)
    }
}

/// Of action, kind.
impl FromRow for Offer {
    ghost is_row = { IsOfferRow };

    ghost is_broken = { λ row. BreaksRule (broken_offer_column row) };

    fn from_row(_alloc: Global, row: &Row) -> Result<Self, RowFault> {
        read_offer(row)
    }
}

/// Of percentage, success, error.
impl FromRow for GroupRule {
    ghost is_row = { IsRuleRow };

    ghost is_broken = { λ row. BreaksRule (broken_rule_column row) };

    fn from_row(_alloc: Global, row: &Row) -> Result<Self, RowFault> {
        read_rule(row)
    }
}

/// Of sequence, number.
impl FromRow for PlacedNumber {
    ghost is_row = { IsNumberRow };

    ghost is_broken = { λ row. BreaksRule (broken_number_column row) };

    fn from_row(_alloc: Global, row: &Row) -> Result<Self, RowFault> {
        read_number(row)
    }
}

/// Of sequence, number, place.
impl FromRow for LastNumber {
    ghost is_row = { IsLastNumberRow };

    ghost is_broken = { λ row. BreaksRule (broken_last_number_column row) };

    fn from_row(_alloc: Global, row: &Row) -> Result<Self, RowFault> {
        read_last_number(row)
    }
}
