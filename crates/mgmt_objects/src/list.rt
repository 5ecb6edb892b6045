//! The arrays of a body, whatever their items.

ghost use Rattle.std.specs.Prelude.{map, Option};
ghost use Rattle.serde_json.specs.Data.{Data};
ghost use Rattle.serde_json.specs.View.{view};
ghost use Rattle.rollout_model.specs.Rules.{is_text};
ghost use Rattle.mgmt_objects.specs.Bodies.{text_in};
ghost use Rattle.mgmt_objects.specs.Readings.{ReadsAs, ReadsBy};
ghost use Rattle.mgmt_objects.specs.Traverse.{array_of, traverse};

use rollout_model::{Refusal, Text};
use serde_json::Value;
use std::alloc::Global;

/// What an item of an array is read as.
pub trait Item: Sized + Drop {
    ghost reads: { Data → Option Self };

    /// The item of a value, or `BadRequest` where it has none.
    fn read(alloc: Global, value: &Value) -> Result<Self, Refusal>
        ensures { ReadsAs (reads (view value.now)) result };
}

impl Item for Text {
    ghost reads = { text_in is_text };

    fn read(alloc: Global, value: &Value) -> Result<Self, Refusal> {
        let Some(text) = value.as_str() else {
            return Err(Refusal::BadRequest);
        };
        match Text::read(alloc, text) {
            Ok(Some(text)) => Ok(text),
            Ok(None) => Err(Refusal::BadRequest),
            Err(_) => Err(Refusal::NoMemory),
        }
    }
}

/// Reads each item, or `BadRequest` where one can't be read.
pub fn read_list<T: Item>(alloc: Global, values: &[Value]) -> Result<Vec<T>, Refusal>
    ensures { ReadsBy (λ v. v.items) (traverse T.reads (map view values.now)) result }
{
    let mut items = Vec::new(alloc);
    for value in values {
        let item = match T::read(alloc, value) {
            Ok(item) => item,
            Err(e) => return Err(e),
        };
        items.push(item)?;
    }
    Ok(items)
}

/// Reads each item of an array, or `BadRequest` where one can't be, or where the value is none.
pub fn read_array<T: Item>(alloc: Global, value: &Value) -> Result<Vec<T>, Refusal>
    ensures { ReadsBy (λ v. v.items) (array_of T.reads (view value.now)) result }
{
    match value.as_array() {
        Some(items) => read_list::<T>(alloc, items),
        None => Err(Refusal::BadRequest),
    }
}
