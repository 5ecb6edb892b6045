//! The body that creates a rollout.

ghost use Rattle.std.specs.Prelude.{◌≡◌, ◌&&◌, true, codes, option_and_then};
ghost use Rattle.std.specs.Option.{option_map_or};
ghost use Rattle.serde_json.specs.Find.{get};
ghost use Rattle.serde_json.specs.View.{view};
ghost use Rattle.mgmt_objects.specs.Bodies.{body_data, number_member, string_member};
ghost use Rattle.mgmt_objects.specs.Readings.{ReadsAs};
ghost use Rattle.mgmt_objects.specs.RolloutBodies.{plan_members, plan_of};
ghost use Rattle.mgmt_objects.specs.Thresholds.{says, threshold_of};

use crate::body::read_value;
use crate::grouping_body::read_grouping;
use crate::member::{read_number, read_text};
use crate::threshold::{says, string_member, threshold_of};
use rollout_model::{FilterText, Percentage, Refusal, RolloutPlan, SetNo};
use serde_json::Value;
use std::alloc::Global;

fn threshold_member(object: &Value, key: &str) -> Option<Percentage>
    ensures { result ≡ option_and_then threshold_of (get key.now (view object.now)) }
{
    let condition = object.get(key)?;
    threshold_of(condition)
}

/// Whether a member is missing, or names this action.
fn allows(object: &Value, key: &str, word: &str) -> bool
    ensures { result ≡ option_map_or (says (codes "action") word.now) (get key.now (view object.now)) true }
{
    match object.get(key) {
        None => true,
        Some(action) => says(action, "action", word),
    }
}

/// Whether the actions that are named, if any, are those that are always taken.
fn allows_actions(object: &Value) -> bool
    ensures { result ≡ (option_map_or (says (codes "action") (codes "NEXTGROUP")) (get (codes "successAction") (view object.now)) true
        && option_map_or (says (codes "action") (codes "PAUSE")) (get (codes "errorAction") (view object.now)) true) }
{
    allows(object, "successAction", "NEXTGROUP") && allows(object, "errorAction", "PAUSE")
}

fn set_member(object: &Value) -> Option<SetNo>
    ensures { result ≡ number_member (codes "distributionSetId") (view object.now) }
{
    read_number(object, "distributionSetId")
}

/// A filter as it is written: any text.
fn read_filter(alloc: Global, object: &Value, key: &str) -> Result<FilterText, Refusal>
    ensures { ReadsAs (string_member key.now (view object.now)) result }
{
    let Some(text) = string_member(object, key) else {
        return Err(Refusal::BadRequest);
    };
    match FilterText::from_text(alloc, text) {
        Ok(filter) => Ok(filter),
        Err(_) => Err(Refusal::NoMemory),
    }
}

fn read_members(alloc: Global, object: &Value) -> Result<RolloutPlan, Refusal>
    ensures { ReadsAs (plan_members (view object.now)) result }
{
    let name = read_text(alloc, object, "name")?;
    let Some(set_number) = set_member(object) else {
        return Err(Refusal::BadRequest);
    };
    let filter_text = read_filter(alloc, object, "targetFilterQuery")?;
    let Some(success) = threshold_member(object, "successCondition") else {
        return Err(Refusal::BadRequest);
    };
    let Some(error) = threshold_member(object, "errorCondition") else {
        return Err(Refusal::BadRequest);
    };
    let groups = read_grouping(alloc, object, success, error)?;
    Ok(RolloutPlan {
        name,
        set_number,
        filter_text,
        groups,
        success,
        error,
    })
}

fn read_plan(alloc: Global, object: &Value) -> Result<RolloutPlan, Refusal>
    ensures { ReadsAs (plan_of (view object.now)) result }
{
    if !allows_actions(object) {
        return Err(Refusal::BadRequest);
    }
    read_members(alloc, object)
}

/// What the body of `POST /rest/v1/rollouts` plans: one object with `name`, `distributionSetId`, `targetFilterQuery`,
/// `successCondition` and `errorCondition`, either `amountGroups` from 1 to 50 or `groups`, 1 to 50 objects, and perhaps
/// `successAction` and `errorAction`.
pub fn read_rollout_body(alloc: Global, bytes: &[u8]) -> Result<RolloutPlan, Refusal>
    ensures { ReadsAs (option_and_then plan_of (body_data bytes.now)) result }
{
    let value = read_value(alloc, bytes)?;
    read_plan(alloc, &value)
}
