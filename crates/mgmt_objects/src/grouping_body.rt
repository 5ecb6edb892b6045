//! How a rollout's body cuts it into groups.

ghost use Rattle.std.specs.Prelude.{◌≡◌, None, Some, IfOk, codes, map, option_and_then, option_map};
ghost use Rattle.serde_json.specs.Find.{get};
ghost use Rattle.serde_json.specs.View.{view};
ghost use Rattle.rollout_model.specs.Groupings.{evenly};
ghost use Rattle.rollout_model.specs.Rules.{is_group_count, kept_if};
ghost use Rattle.mgmt_objects.specs.Bodies.{whole_of};
ghost use Rattle.mgmt_objects.specs.GroupBodies.{group_item_of, grouping_by, item_definition};
ghost use Rattle.mgmt_objects.specs.Readings.{ReadsAs, ReadsBy, ReadsExactly};
ghost use Rattle.mgmt_objects.specs.Traverse.{array_of};

use crate::group_item::GroupItem;
use crate::list::read_array;
use crate::member::read_whole;
use rollout_model::{GroupCount, GroupDefinition, GroupDefinitions, Grouping, Percentage, Refusal};
use serde_json::Value;
use std::alloc::{AllocError, Global};

/// The definitions of a rollout of these thresholds, one an item.
fn definitions_by(
    alloc: Global,
    items: &[GroupItem],
    success: Percentage,
    error: Percentage,
) -> Result<Vec<GroupDefinition>, AllocError>
    ensures { IfOk result (λ v. v.items ≡ map (item_definition success error) items.now) }
{
    items
        .iter()
        .map(|item| item.definition(success, error))
        .collect(alloc)
}

fn read_definitions(
    alloc: Global,
    groups: &Value,
    success: Percentage,
    error: Percentage,
) -> Result<Vec<GroupDefinition>, Refusal>
    ensures { ReadsBy (λ v. v.items) (option_map (map (item_definition success error)) (array_of group_item_of (view groups.now))) result }
{
    let items = read_array::<GroupItem>(alloc, groups)?;
    let definitions = definitions_by(alloc, &items, success, error)?;
    Ok(definitions)
}

/// A group for each item of an array.
fn read_defined(
    alloc: Global,
    groups: &Value,
    success: Percentage,
    error: Percentage,
) -> Result<Grouping, Refusal>
    ensures { ReadsAs (grouping_by success error None (Some (view groups.now))) result }
{
    let definitions = read_definitions(alloc, groups, success, error)?;
    match GroupDefinitions::from_vec(definitions) {
        Some(definitions) => Ok(Grouping::defined(definitions)),
        None => Err(Refusal::BadRequest),
    }
}

fn even_count(amount: &Value) -> Option<GroupCount>
    ensures { result ≡ option_and_then (kept_if is_group_count) (whole_of (view amount.now)) }
{
    let count = read_whole(amount)?;
    GroupCount::new(count)
}

/// So many even groups.
fn read_even(amount: &Value) -> Result<Grouping, Refusal>
    ensures { ReadsExactly (option_map evenly (option_and_then (kept_if is_group_count) (whole_of (view amount.now)))) result }
{
    match even_count(amount) {
        Some(count) => Ok(Grouping::evenly(count)),
        None => Err(Refusal::BadRequest),
    }
}

/// The groups of a rollout of these thresholds, by `amountGroups` or by `groups`: exactly one of them is there.
pub fn read_grouping(
    alloc: Global,
    object: &Value,
    success: Percentage,
    error: Percentage,
) -> Result<Grouping, Refusal>
    ensures { ReadsAs (grouping_by success error (get (codes "amountGroups") (view object.now)) (get (codes "groups") (view object.now))) result }
{
    match (object.get("amountGroups"), object.get("groups")) {
        (Some(amount), None) => read_even(amount),
        (None, Some(groups)) => read_defined(alloc, groups, success, error),
        (Some(_), Some(_)) => Err(Refusal::BadRequest),
        (None, None) => Err(Refusal::BadRequest),
    }
}
