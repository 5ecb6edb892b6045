//! Written by tools/gen/sql-proofs from rows.txt of desk_records. What it makes is proved; the tool is not trusted.
//! How rows are read.

ghost use Rattle.std.specs.Prelude.{◌≡◌, ◌⊎◌, IfOk, IfErr, None, Some};
ghost use Rattle.desk_records.specs.ReadRows.{IsArtifactRow, IsAttributeRow, IsGroupRow, IsLastNumberRow, IsListedActionRow, IsListedTargetRow};
ghost use Rattle.desk_records.specs.ReadRows.{IsModuleLabelRow, IsNumberRow, IsOfferRow, IsOwnedAttributeRow, IsOwnedTagRow, IsRuleRow, IsSetNameRow};
ghost use Rattle.desk_records.specs.ReadRows.{IsStoredActionRow, IsStoredArtifactRow, IsStoredRolloutRow, IsStoredTargetRow, broken_artifact_column};
ghost use Rattle.desk_records.specs.ReadRows.{broken_attribute_column, broken_group_column, broken_last_number_column, broken_listed_action_column};
ghost use Rattle.desk_records.specs.ReadRows.{broken_listed_target_column, broken_module_label_column, broken_number_column, broken_offer_column};
ghost use Rattle.desk_records.specs.ReadRows.{broken_owned_attribute_column, broken_owned_tag_column, broken_rule_column, broken_set_name_column};
ghost use Rattle.desk_records.specs.ReadRows.{broken_stored_action_column, broken_stored_artifact_column, broken_stored_rollout_column};
ghost use Rattle.desk_records.specs.ReadRows.{broken_stored_target_column};

use crate::artifact_row::{StoredArtifact, digest_at, filename_at, own_number_at, size_at};
use crate::codes::{
    approval_at, feedback_number_at, flag_at, group_count_at, numbered_at, outcome_at,
    percentage_at, percentage_or_none_at, place_at,
};
use crate::module_row::{RowFault, text_at};
use crate::number_row::{LastNumber, PlacedNumber};
use crate::rollout_row::{ListedAction, StoredAction, StoredRollout, ToldPlan, filter_at};
use crate::set_row::SetName;
use crate::table_columns::Column;
use crate::target_row::{
    ListedTarget, OwnedAttribute, OwnedTag, StoredTarget, id_at, value_at, word_at,
};
use rollout_machine::{Bounds, GroupRecord};
use rollout_model::{Artifact, Attribute, GroupRule, ModuleLabel, Offer};
use sqlite::Row;
use std::alloc::Global;

/// What a row of name, type, version says.
pub fn read_module_label(alloc: Global, row: &Row) -> Result<ModuleLabel, RowFault>
    ensures ok { IfOk result (IsModuleLabelRow row.now) }
    ensures kept { IfOk result (λ it. broken_module_label_column row.now ≡ None) }
    ensures err { IfErr result (λ e. (e ≡ RowFault.Memory) ⊎ ((c : _) × (e ≡ RowFault.Broken c) × (broken_module_label_column row.now ≡ Some c))) }
{
    let name = text_at(alloc, row, 0, Column::ModuleName)?;
    let kind = text_at(alloc, row, 1, Column::ModuleType)?;
    let version = text_at(alloc, row, 2, Column::ModuleVersion)?;
    Ok(ModuleLabel {
        name,
        kind,
        version,
    })
}

/// What a row of name, version says.
pub fn read_set_name(alloc: Global, row: &Row) -> Result<SetName, RowFault>
    ensures ok { IfOk result (IsSetNameRow row.now) }
    ensures kept { IfOk result (λ it. broken_set_name_column row.now ≡ None) }
    ensures err { IfErr result (λ e. (e ≡ RowFault.Memory) ⊎ ((c : _) × (e ≡ RowFault.Broken c) × (broken_set_name_column row.now ≡ Some c))) }
{
    let name = text_at(alloc, row, 0, Column::SetName)?;
    let version = text_at(alloc, row, 1, Column::SetVersion)?;
    Ok(SetName { name, version })
}

/// What a row of module, filename, size, sha256 says. Takes no memory.
pub fn read_stored_artifact(row: &Row) -> Result<StoredArtifact, RowFault>
    ensures ok { IfOk result (IsStoredArtifactRow row.now) }
    ensures kept { IfOk result (λ it. broken_stored_artifact_column row.now ≡ None) }
    ensures err { IfErr result (λ e. (c : _) × (e ≡ RowFault.Broken c) × (broken_stored_artifact_column row.now ≡ Some c)) }
{
    let module_number = own_number_at(row, 0, Column::ArtifactModule)?;
    let filename = filename_at(row, 1, Column::ArtifactFilename)?;
    let size = size_at(row, 2, Column::ArtifactSize)?;
    let digest = digest_at(row, 3, Column::ArtifactDigest)?;
    Ok(StoredArtifact {
        module_number,
        filename,
        size,
        digest,
    })
}

/// What a row of number, filename, size, sha256 says. Takes no memory.
pub fn read_artifact(row: &Row) -> Result<Artifact, RowFault>
    ensures ok { IfOk result (IsArtifactRow row.now) }
    ensures kept { IfOk result (λ it. broken_artifact_column row.now ≡ None) }
    ensures err { IfErr result (λ e. (c : _) × (e ≡ RowFault.Broken c) × (broken_artifact_column row.now ≡ Some c)) }
{
    let number = own_number_at(row, 0, Column::ArtifactNumber)?;
    let filename = filename_at(row, 1, Column::ArtifactFilename)?;
    let size = size_at(row, 2, Column::ArtifactSize)?;
    let digest = digest_at(row, 3, Column::ArtifactDigest)?;
    Ok(Artifact {
        number,
        filename,
        size,
        digest,
    })
}

/// What a row of name, digest says.
pub fn read_stored_target(alloc: Global, row: &Row) -> Result<StoredTarget, RowFault>
    ensures ok { IfOk result (IsStoredTargetRow row.now) }
    ensures kept { IfOk result (λ it. broken_stored_target_column row.now ≡ None) }
    ensures err { IfErr result (λ e. (e ≡ RowFault.Memory) ⊎ ((c : _) × (e ≡ RowFault.Broken c) × (broken_stored_target_column row.now ≡ Some c))) }
{
    let name = text_at(alloc, row, 0, Column::TargetName)?;
    let digest = digest_at(row, 1, Column::TargetDigest)?;
    Ok(StoredTarget { name, digest })
}

/// What a row of controller, name says.
pub fn read_listed_target(alloc: Global, row: &Row) -> Result<ListedTarget, RowFault>
    ensures ok { IfOk result (IsListedTargetRow row.now) }
    ensures kept { IfOk result (λ it. broken_listed_target_column row.now ≡ None) }
    ensures err { IfErr result (λ e. (e ≡ RowFault.Memory) ⊎ ((c : _) × (e ≡ RowFault.Broken c) × (broken_listed_target_column row.now ≡ Some c))) }
{
    let id = id_at(row, 0, Column::TargetId)?;
    let name = text_at(alloc, row, 1, Column::TargetName)?;
    Ok(ListedTarget { id, name })
}

/// What a row of controller, tag says. Takes no memory.
pub fn read_owned_tag(row: &Row) -> Result<OwnedTag, RowFault>
    ensures ok { IfOk result (IsOwnedTagRow row.now) }
    ensures kept { IfOk result (λ it. broken_owned_tag_column row.now ≡ None) }
    ensures err { IfErr result (λ e. (c : _) × (e ≡ RowFault.Broken c) × (broken_owned_tag_column row.now ≡ Some c)) }
{
    let id = id_at(row, 0, Column::TargetId)?;
    let tag = word_at(row, 1, Column::TargetTag)?;
    Ok(OwnedTag { id, tag })
}

/// What a row of key, value says.
pub fn read_attribute(alloc: Global, row: &Row) -> Result<Attribute, RowFault>
    ensures ok { IfOk result (IsAttributeRow row.now) }
    ensures kept { IfOk result (λ it. broken_attribute_column row.now ≡ None) }
    ensures err { IfErr result (λ e. (e ≡ RowFault.Memory) ⊎ ((c : _) × (e ≡ RowFault.Broken c) × (broken_attribute_column row.now ≡ Some c))) }
{
    let key = word_at(row, 0, Column::AttributeKey)?;
    let value = value_at(alloc, row, 1, Column::AttributeValue)?;
    Ok(Attribute { key, value })
}

/// What a row of controller, key, value says.
pub fn read_owned_attribute(alloc: Global, row: &Row) -> Result<OwnedAttribute, RowFault>
    ensures ok { IfOk result (IsOwnedAttributeRow row.now) }
    ensures kept { IfOk result (λ it. broken_owned_attribute_column row.now ≡ None) }
    ensures err { IfErr result (λ e. (e ≡ RowFault.Memory) ⊎ ((c : _) × (e ≡ RowFault.Broken c) × (broken_owned_attribute_column row.now ≡ Some c))) }
{
    let id = id_at(row, 0, Column::TargetId)?;
    let key = word_at(row, 1, Column::AttributeKey)?;
    let value = value_at(alloc, row, 2, Column::AttributeValue)?;
    let attribute = Attribute { key, value };
    Ok(OwnedAttribute { id, attribute })
}

/// What a row of name, dset, filter_text, groups, success, error, approval, started, paused says.
pub fn read_stored_rollout(alloc: Global, row: &Row) -> Result<StoredRollout, RowFault>
    ensures ok { IfOk result (IsStoredRolloutRow row.now) }
    ensures kept { IfOk result (λ it. broken_stored_rollout_column row.now ≡ None) }
    ensures err { IfErr result (λ e. (e ≡ RowFault.Memory) ⊎ ((c : _) × (e ≡ RowFault.Broken c) × (broken_stored_rollout_column row.now ≡ Some c))) }
{
    let name = text_at(alloc, row, 0, Column::RolloutName)?;
    let set_number = numbered_at(row, 1).ok_or(RowFault::Broken(Column::RolloutSet))?;
    let filter_text = filter_at(alloc, row, 2, Column::RolloutFilter)?;
    let groups = group_count_at(row, 3).ok_or(RowFault::Broken(Column::RolloutGroups))?;
    let success = percentage_at(row, 4).ok_or(RowFault::Broken(Column::RolloutSuccess))?;
    let error = percentage_at(row, 5).ok_or(RowFault::Broken(Column::RolloutError))?;
    let approval = approval_at(row, 6).ok_or(RowFault::Broken(Column::RolloutApproval))?;
    let started = flag_at(row, 7).ok_or(RowFault::Broken(Column::RolloutStarted))?;
    let paused = flag_at(row, 8).ok_or(RowFault::Broken(Column::RolloutPaused))?;
    let plan = ToldPlan {
        name,
        set_number,
        filter_text,
        groups,
        success,
        error,
    };
    Ok(StoredRollout {
        plan,
        approval,
        started,
        paused,
    })
}

/// What a row of number, first_place, last_place, started, ok, bad, gone says. Takes no memory.
pub fn read_group(row: &Row) -> Result<GroupRecord, RowFault>
    ensures ok { IfOk result (IsGroupRow row.now) }
    ensures kept { IfOk result (λ it. broken_group_column row.now ≡ None) }
    ensures err { IfErr result (λ e. (c : _) × (e ≡ RowFault.Broken c) × (broken_group_column row.now ≡ Some c)) }
{
    let number = size_at(row, 0, Column::GroupNumber)?;
    let first = size_at(row, 1, Column::GroupFirst)?;
    let last = size_at(row, 2, Column::GroupLast)?;
    let started = flag_at(row, 3).ok_or(RowFault::Broken(Column::GroupStarted))?;
    let ok = size_at(row, 4, Column::GroupOk)?;
    let bad = size_at(row, 5, Column::GroupBad)?;
    let gone = size_at(row, 6, Column::GroupGone)?;
    let bounds = Bounds { first, last };
    Ok(GroupRecord {
        number,
        bounds,
        started,
        ok,
        bad,
        gone,
    })
}

/// What a row of rollout, place, controller, canceling, outcome, notes, entries says. Takes no memory.
pub fn read_stored_action(row: &Row) -> Result<StoredAction, RowFault>
    ensures ok { IfOk result (IsStoredActionRow row.now) }
    ensures kept { IfOk result (λ it. broken_stored_action_column row.now ≡ None) }
    ensures err { IfErr result (λ e. (c : _) × (e ≡ RowFault.Broken c) × (broken_stored_action_column row.now ≡ Some c)) }
{
    let rollout = numbered_at(row, 0).ok_or(RowFault::Broken(Column::ActionRollout))?;
    let position = size_at(row, 1, Column::ActionPlace)?;
    let target = id_at(row, 2, Column::TargetId)?;
    let canceling = flag_at(row, 3).ok_or(RowFault::Broken(Column::ActionCanceling))?;
    let outcome = outcome_at(row, 4).ok_or(RowFault::Broken(Column::ActionOutcome))?;
    let notes = size_at(row, 5, Column::ActionNotes)?;
    let entries = size_at(row, 6, Column::ActionEntries)?;
    Ok(StoredAction {
        rollout,
        position,
        target,
        canceling,
        outcome,
        notes,
        entries,
    })
}

/// What a row of rollout, place, controller, canceling, outcome, notes, entries, number says. Takes no memory.
pub fn read_listed_action(row: &Row) -> Result<ListedAction, RowFault>
    ensures ok { IfOk result (IsListedActionRow row.now) }
    ensures kept { IfOk result (λ it. broken_listed_action_column row.now ≡ None) }
    ensures err { IfErr result (λ e. (c : _) × (e ≡ RowFault.Broken c) × (broken_listed_action_column row.now ≡ Some c)) }
{
    let number = numbered_at(row, 7).ok_or(RowFault::Broken(Column::ActionNumber))?;
    let action = read_stored_action(row)?;
    Ok(ListedAction { number, action })
}

/// What a row of action, kind says. Takes no memory.
pub fn read_offer(row: &Row) -> Result<Offer, RowFault>
    ensures ok { IfOk result (IsOfferRow row.now) }
    ensures kept { IfOk result (λ it. broken_offer_column row.now ≡ None) }
    ensures err { IfErr result (λ e. (c : _) × (e ≡ RowFault.Broken c) × (broken_offer_column row.now ≡ Some c)) }
{
    let action = numbered_at(row, 0).ok_or(RowFault::Broken(Column::OfferAction))?;
    let canceling = flag_at(row, 1).ok_or(RowFault::Broken(Column::OfferKind))?;
    Ok(Offer { action, canceling })
}

/// What a row of percentage, success, error says. Takes no memory.
pub fn read_rule(row: &Row) -> Result<GroupRule, RowFault>
    ensures ok { IfOk result (IsRuleRow row.now) }
    ensures kept { IfOk result (λ it. broken_rule_column row.now ≡ None) }
    ensures err { IfErr result (λ e. (c : _) × (e ≡ RowFault.Broken c) × (broken_rule_column row.now ≡ Some c)) }
{
    let percentage = percentage_or_none_at(row, 0).ok_or(RowFault::Broken(Column::RulePercentage))?;
    let success = percentage_at(row, 1).ok_or(RowFault::Broken(Column::RuleSuccess))?;
    let error = percentage_at(row, 2).ok_or(RowFault::Broken(Column::RuleError))?;
    Ok(GroupRule {
        percentage,
        success,
        error,
    })
}

/// What a row of sequence, number says. Takes no memory.
pub fn read_number(row: &Row) -> Result<PlacedNumber, RowFault>
    ensures ok { IfOk result (IsNumberRow row.now) }
    ensures kept { IfOk result (λ it. broken_number_column row.now ≡ None) }
    ensures err { IfErr result (λ e. (c : _) × (e ≡ RowFault.Broken c) × (broken_number_column row.now ≡ Some c)) }
{
    let sequence = place_at(row, 0).ok_or(RowFault::Broken(Column::NumberSequence))?;
    let number = feedback_number_at(row, 1).ok_or(RowFault::Broken(Column::NumberValue))?;
    Ok(PlacedNumber { sequence, number })
}

/// What a row of sequence, number, place says. Takes no memory.
pub fn read_last_number(row: &Row) -> Result<LastNumber, RowFault>
    ensures ok { IfOk result (IsLastNumberRow row.now) }
    ensures kept { IfOk result (λ it. broken_last_number_column row.now ≡ None) }
    ensures err { IfErr result (λ e. (c : _) × (e ≡ RowFault.Broken c) × (broken_last_number_column row.now ≡ Some c)) }
{
    let place = place_at(row, 2).ok_or(RowFault::Broken(Column::NumberPlace))?;
    let it = read_number(row)?;
    Ok(LastNumber { place, it })
}
