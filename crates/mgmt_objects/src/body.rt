//! The value of a body.

ghost use Rattle.std.specs.Prelude.{◌≡◌, Some, MatchResult, option_and_then, option_map};
ghost use Rattle.serde_json.specs.Find.{as_array};
ghost use Rattle.serde_json.specs.View.{view};
ghost use Rattle.mgmt_objects.specs.Bodies.{body_data, only_item};
ghost use Rattle.mgmt_objects.specs.Readings.{IsReadingFault, ReadsBy};

use rollout_model::Refusal;
use serde_json::Value;
use std::alloc::Global;

/// The value that a body writes, as `serde_json` reads it.
pub fn read_value(alloc: Global, bytes: &[u8]) -> Result<Value, Refusal>
    ensures { ReadsBy view (body_data bytes.now) result }
{
    match Value::from_slice(alloc, bytes) {
        Ok(value) => Ok(value),
        Err(e) => {
            if e.is_memory() {
                Err(Refusal::NoMemory)
            } else {
                Err(Refusal::BadRequest)
            }
        }
    }
}

/// The one item of an array that has just one.
pub fn only_item(value: &Value) -> Option<&Value>
    ensures { option_map (λ v. view v.now) result ≡ option_and_then only_item (as_array (view value.now)) }
{
    let items = value.as_array()?;
    if items.len() != 1 {
        return None;
    }
    items.first()
}
