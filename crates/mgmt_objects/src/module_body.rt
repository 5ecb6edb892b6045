//! The body that adds a module.

ghost use Rattle.std.specs.Prelude.{option_and_then};
ghost use Rattle.serde_json.specs.View.{view};
ghost use Rattle.mgmt_objects.specs.Bodies.{body_item};
ghost use Rattle.mgmt_objects.specs.ModuleBodies.{label_of};
ghost use Rattle.mgmt_objects.specs.Readings.{ReadsAs};

use crate::body::{only_item, read_value};
use crate::member::read_text;
use rollout_model::{ModuleLabel, Refusal};
use serde_json::Value;
use std::alloc::Global;

fn read_label(alloc: Global, object: &Value) -> Result<ModuleLabel, Refusal>
    ensures { ReadsAs (label_of (view object.now)) result }
{
    let name = read_text(alloc, object, "name")?;
    let kind = read_text(alloc, object, "type")?;
    let version = read_text(alloc, object, "version")?;
    Ok(ModuleLabel {
        name,
        kind,
        version,
    })
}

/// What the body of `POST /rest/v1/softwaremodules` names: an array of exactly one object with `name`, `type` and `version`.
pub fn read_module_body(alloc: Global, bytes: &[u8]) -> Result<ModuleLabel, Refusal>
    ensures { ReadsAs (option_and_then label_of (body_item bytes.now)) result }
{
    let value = read_value(alloc, bytes)?;
    let Some(object) = only_item(&value) else {
        return Err(Refusal::BadRequest);
    };
    read_label(alloc, object)
}
