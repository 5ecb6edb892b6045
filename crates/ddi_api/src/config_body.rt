//! The attributes that a device gives in a body.

ghost use Rattle.std.specs.Prelude.{◌≡◌, codes, option_and_then, option_map};
ghost use Rattle.serde_json.specs.Find.{as_object, get};
ghost use Rattle.serde_json.specs.View.{members_view, view};
ghost use Rattle.mgmt_objects.specs.Bodies.{body_data};
ghost use Rattle.mgmt_objects.specs.Readings.{ReadsAs};
ghost use Rattle.rollout_model.specs.Pairs.{is_config_data};
ghost use Rattle.rollout_model.specs.Rules.{kept_if};
ghost use Rattle.ddi_api.specs.ConfigBodies.{attribute_of, member_attributes, config_of, is_merge};

use mgmt_objects::read_value;
use rollout_model::{Attribute, Attributes, ConfigData, Refusal, Value as AttributeValue, Word};
use serde_json::{Map, Value};
use std::alloc::Global;

fn read_attribute(alloc: Global, key: &str, value: &Value) -> Result<Attribute, Refusal>
    ensures { ReadsAs (attribute_of key.now (view value.now)) result }
{
    let Some(key) = Word::read(key) else {
        return Err(Refusal::BadRequest);
    };
    let Some(text) = value.as_str() else {
        return Err(Refusal::BadRequest);
    };
    match AttributeValue::read(alloc, text) {
        Ok(Some(value)) => Ok(Attribute { key, value }),
        Ok(None) => Err(Refusal::BadRequest),
        Err(_) => Err(Refusal::NoMemory),
    }
}

fn read_attributes(alloc: Global, members: &Map<String, Value>) -> Result<Attributes, Refusal>
    ensures { ReadsAs (member_attributes (members_view members.now.entries)) result }
{
    let mut attributes = Attributes::new(alloc);
    for (key, value) in members.iter() {
        let attribute = match read_attribute(alloc, key.as_str(), value) {
            Ok(attribute) => attribute,
            Err(e) => return Err(e),
        };
        attributes.push(attribute)?;
    }
    Ok(attributes)
}

fn object_member<'a>(object: &'a Value, key: &str) -> Option<&'a Map<String, Value>>
    ensures { option_map (λ m. members_view m.now.entries) result ≡ option_and_then as_object (get key.now (view object.now)) }
{
    object.get(key).and_then(Value::as_object)
}

fn read_data(alloc: Global, object: &Value) -> Result<ConfigData, Refusal>
    ensures { ReadsAs (option_and_then (kept_if is_config_data) (option_and_then member_attributes
        (option_and_then as_object (get (codes "data") (view object.now))))) result }
{
    let Some(members) = object_member(object, "data") else {
        return Err(Refusal::BadRequest);
    };
    let attributes = read_attributes(alloc, members)?;
    match ConfigData::from_attributes(attributes) {
        Some(given) => Ok(given),
        None => Err(Refusal::BadRequest),
    }
}

/// Whether `mode` is `merge` or missing.
fn is_merge(object: &Value) -> bool
    ensures { result ≡ is_merge (get (codes "mode") (view object.now)) }
{
    match object.get("mode") {
        Some(mode) => match mode.as_str() {
            Some(text) => text == "merge",
            None => false,
        },
        None => true,
    }
}

fn read_config(alloc: Global, object: &Value) -> Result<ConfigData, Refusal>
    ensures { ReadsAs (config_of (view object.now)) result }
{
    if !is_merge(object) {
        return Err(Refusal::BadRequest);
    }
    read_data(alloc, object)
}

/// What the body of `PUT ../configData` gives: an object with `data`, at most 32 members that are texts, and perhaps `mode`, which
/// is `merge`.
pub(crate) fn read_config_body(alloc: Global, bytes: &[u8]) -> Result<ConfigData, Refusal>
    ensures { ReadsAs (option_and_then config_of (body_data bytes.now)) result }
{
    let value = read_value(alloc, bytes)?;
    read_config(alloc, &value)
}
