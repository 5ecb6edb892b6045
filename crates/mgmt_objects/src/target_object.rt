//! Targets in replies, and what a put of targets answers.

ghost use Rattle.std.specs.Prelude.{◌≡◌, codes, refl, IfOk, string_bytes};
ghost use Rattle.serde_json.specs.Data.{no_members, object, string};
ghost use Rattle.serde_json.specs.View.{view};
ghost use Rattle.serde_json.specs.Written.{compact_text};
ghost use Rattle.mgmt_objects.specs.Floats.{target_has_no_float};
ghost use Rattle.mgmt_objects.specs.TargetObjects.{accepted_data, target_data, with_attribute_members};

use crate::shown::{Shown, values};
use rollout_model::{Attribute, ShownTarget, Word};
use serde_json::{Map, Value, json};
use std::alloc::{AllocError, Global};

/// A tag as a target shows it.
impl Shown for Word {
    ghost shows = { string };

    ghost has_no_float = { λ word. refl };

    fn value(&self, alloc: Global) -> Result<Value, AllocError> {
        Value::try_from_str(alloc, self.as_str())
    }
}

fn attributes_value(alloc: Global, attributes: &[Attribute]) -> Result<Value, AllocError>
    ensures { IfOk result (λ v. view v ≡ object (with_attribute_members no_members attributes.now)) }
{
    let mut members = Map::new(alloc);
    for attribute in attributes {
        let key = String::from_str(alloc, attribute.key.as_str())?;
        let value = Value::try_from_str(alloc, attribute.value.as_str())?;
        members.insert(key, value)?;
    }
    Ok(Value::Object(members))
}

impl Shown for ShownTarget {
    ghost shows = { target_data };

    ghost has_no_float = { target_has_no_float };

    fn value(&self, alloc: Global) -> Result<Value, AllocError> {
        let attributes = attributes_value(alloc, self.attributes.as_slice())?;
        let tags = values(alloc, self.tags.as_slice())?;
        json!(in alloc; {
            "attributes": attributes,
            "controllerId": self.id.as_str(),
            "name": self.name.as_str(),
            "tags": Value::Array(tags),
            "updateStatus": self.word.as_str(),
        })
    }
}

fn accepted_value(alloc: Global, count: u32) -> Result<Value, AllocError>
    ensures { IfOk result (λ v. view v ≡ accepted_data count) }
{
    json!(in alloc; { "accepted": count })
}

/// What a put of so many rows of targets answers.
pub fn accepted_text(alloc: Global, count: u32) -> Result<String, AllocError>
    ensures { IfOk result (λ s. string_bytes s ≡ compact_text (accepted_data count)) }
{
    let value = accepted_value(alloc, count)?;
    value.to_string(alloc)
}

/// What a command that has nothing to show answers: an object without members.
pub fn done_text(alloc: Global) -> Result<String, AllocError>
    ensures { IfOk result (λ s. string_bytes s ≡ codes "{}") }
{
    String::from_str(alloc, "{}")
}
