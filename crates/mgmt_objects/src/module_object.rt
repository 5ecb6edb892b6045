//! Modules in replies.

ghost use Rattle.std.specs.Prelude.{◌≡◌, refl};
ghost use Rattle.mgmt_objects.specs.ModuleObjects.{module_data};

use crate::shown::Shown;
use rollout_model::Module;
use serde_json::{Value, json};
use std::alloc::{AllocError, Global};

impl Shown for Module {
    ghost shows = { module_data };

    ghost has_no_float = { λ m. refl };

    fn value(&self, alloc: Global) -> Result<Value, AllocError> {
        let name = self.label.name.as_str();
        let kind = self.label.kind.as_str();
        let version = self.label.version.as_str();
        json!(in alloc; {
            "id": self.number.get(),
            "locked": self.locked,
            "name": name,
            "type": kind,
            "version": version,
        })
    }
}
