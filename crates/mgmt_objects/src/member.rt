//! The members of an object.

ghost use Rattle.std.specs.Prelude.{◌≡◌, ◌≤◌, ◌^◌, ℕ, Some, IfSome, IfNone};
ghost use Rattle.serde_json.specs.View.{view};
ghost use Rattle.mgmt_objects.specs.Bodies.{number_member, text_member, whole_of};
ghost use Rattle.mgmt_objects.specs.Readings.{ReadsAs};

use rollout_model::{Number, Refusal, Text};
use serde_json::Value;
use std::alloc::Global;

/// A member that is a name, a type or a version.
pub fn read_text(alloc: Global, object: &Value, key: &str) -> Result<Text, Refusal>
    ensures { ReadsAs (text_member key.now (view object.now)) result }
{
    let Some(text) = object.get(key).and_then(Value::as_str) else {
        return Err(Refusal::BadRequest);
    };
    match Text::read(alloc, text) {
        Ok(Some(text)) => Ok(text),
        Ok(None) => Err(Refusal::BadRequest),
        Err(_) => Err(Refusal::NoMemory),
    }
}

/// A whole number below 2^32, written without sign, fraction or exponent.
pub fn read_whole(value: &Value) -> Option<u32>
    ensures whole { IfSome result (λ n. whole_of (view value.now) ≡ Some n) }
    ensures none { IfNone result ((n : ℕ) → whole_of (view value.now) ≡ Some n → 2 ^ 32 ≤ n) }
{
    let number = value.as_u64()?;
    u32::try_from(number).ok()
}

/// A member that is the number of a module or a set, from 1 to 2,147,483,647.
pub fn read_number<Kind>(object: &Value, key: &str) -> Option<Number<Kind>>
    ensures { result ≡ number_member key.now (view object.now) }
{
    let number = object.get(key).and_then(read_whole)?;
    Number::new(number)
}
