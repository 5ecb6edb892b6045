//! What a rollout's body says of one group.

ghost use Rattle.std.specs.Prelude.{◌≡◌, option_and_then};
ghost use Rattle.serde_json.specs.Find.{get};
ghost use Rattle.serde_json.specs.View.{view};
ghost use Rattle.mgmt_objects.specs.Bodies.{if_given, whole_of};
ghost use Rattle.rollout_model.specs.Rules.{is_percentage, kept_if};
ghost use Rattle.mgmt_objects.specs.GroupBodies.{item_definition, group_item_of};
ghost use Rattle.mgmt_objects.specs.Readings.{ReadsAs, ReadsExactly};
ghost use Rattle.mgmt_objects.specs.Thresholds.{threshold_of};

use crate::list::Item;
use crate::member::read_whole;
use crate::threshold::threshold_of;
use rollout_model::{GroupDefinition, Percentage, Refusal};
use serde_json::Value;
use std::alloc::Global;

/// An item of `groups`. A threshold that is missing is the rollout's.
#[derive(Clone, Copy)]
pub struct GroupItem {
    pub percentage: Percentage,
    pub success: Option<Percentage>,
    pub error: Option<Percentage>,
}

impl GroupItem {
    /// The group's definition in a rollout of these thresholds.
    pub fn definition(&self, success: Percentage, error: Percentage) -> GroupDefinition
        ensures { result ≡ item_definition success error self.now }
    {
        GroupDefinition {
            percentage: self.percentage,
            success: self.success.unwrap_or(success),
            error: self.error.unwrap_or(error),
        }
    }
}

fn percentage_member(object: &Value, key: &str) -> Option<Percentage>
    ensures { result ≡ option_and_then (kept_if is_percentage) (option_and_then whole_of (get key.now (view object.now))) }
{
    let percent = object.get(key).and_then(read_whole)?;
    match u8::try_from(percent) {
        Ok(percent) => Percentage::new(percent),
        Err(_) => None,
    }
}

/// A threshold of the group's own, and none where the member is missing.
fn read_own_threshold(object: &Value, key: &str) -> Result<Option<Percentage>, Refusal>
    ensures { ReadsExactly (if_given threshold_of (get key.now (view object.now))) result }
{
    let Some(condition) = object.get(key) else {
        return Ok(None);
    };
    match threshold_of(condition) {
        Some(threshold) => Ok(Some(threshold)),
        None => Err(Refusal::BadRequest),
    }
}

/// An object with `targetPercentage`, and perhaps `successCondition` and `errorCondition`.
impl Item for GroupItem {
    ghost reads = { group_item_of };

    fn read(_alloc: Global, value: &Value) -> Result<Self, Refusal> {
        let Some(percentage) = percentage_member(value, "targetPercentage") else {
            return Err(Refusal::BadRequest);
        };
        let success = read_own_threshold(value, "successCondition")?;
        let error = read_own_threshold(value, "errorCondition")?;
        Ok(GroupItem {
            percentage,
            success,
            error,
        })
    }
}
