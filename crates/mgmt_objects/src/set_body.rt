//! The body that adds a distribution set.

ghost use Rattle.std.specs.Prelude.{codes, option_and_then};
ghost use Rattle.serde_json.specs.Find.{get};
ghost use Rattle.serde_json.specs.View.{view};
ghost use Rattle.mgmt_objects.specs.Bodies.{body_item, number_member};
ghost use Rattle.rollout_model.specs.Rules.{is_module_list, kept_if};
ghost use Rattle.mgmt_objects.specs.Readings.{ReadsAs, ReadsBy};
ghost use Rattle.mgmt_objects.specs.SetBodies.{set_label_of};
ghost use Rattle.mgmt_objects.specs.Traverse.{array_of};

use crate::body::{only_item, read_value};
use crate::list::{Item, read_array};
use crate::member::{read_number, read_text};
use rollout_model::{ModuleList, ModuleNo, Refusal, SetLabel};
use serde_json::Value;
use std::alloc::Global;

/// A module that a set names: an object with its `id`.
impl Item for ModuleNo {
    ghost reads = { number_member (codes "id") };

    fn read(_alloc: Global, value: &Value) -> Result<Self, Refusal> {
        match read_number(value, "id") {
            Some(number) => Ok(number),
            None => Err(Refusal::BadRequest),
        }
    }
}

/// The ids of the objects in a member that is an array.
fn read_ids(alloc: Global, object: &Value, key: &str) -> Result<Vec<ModuleNo>, Refusal>
    ensures { ReadsBy (λ v. v.items) (option_and_then (array_of (number_member (codes "id"))) (get key.now (view object.now))) result }
{
    match object.get(key) {
        Some(modules) => read_array::<ModuleNo>(alloc, modules),
        None => Err(Refusal::BadRequest),
    }
}

fn read_modules(alloc: Global, object: &Value) -> Result<ModuleList, Refusal>
    ensures { ReadsAs (option_and_then (kept_if is_module_list)
        (option_and_then (array_of (number_member (codes "id"))) (get (codes "modules") (view object.now)))) result }
{
    let numbers = read_ids(alloc, object, "modules")?;
    match ModuleList::from_numbers(numbers) {
        Some(modules) => Ok(modules),
        None => Err(Refusal::BadRequest),
    }
}

fn read_set_label(alloc: Global, object: &Value) -> Result<SetLabel, Refusal>
    ensures { ReadsAs (set_label_of (view object.now)) result }
{
    let name = read_text(alloc, object, "name")?;
    let version = read_text(alloc, object, "version")?;
    let modules = read_modules(alloc, object)?;
    Ok(SetLabel {
        name,
        version,
        modules,
    })
}

/// What the body of `POST /rest/v1/distributionsets` names: an array of exactly one object with `name`, `version` and
/// `modules`, 1 to 8 objects with the `id` of a module, none of them twice.
pub fn read_set_body(alloc: Global, bytes: &[u8]) -> Result<SetLabel, Refusal>
    ensures { ReadsAs (option_and_then set_label_of (body_item bytes.now)) result }
{
    let value = read_value(alloc, bytes)?;
    let Some(object) = only_item(&value) else {
        return Err(Refusal::BadRequest);
    };
    read_set_label(alloc, object)
}
