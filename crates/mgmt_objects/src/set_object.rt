//! Distribution sets in replies.

ghost use Rattle.std.specs.Prelude.{◌≡◌, refl};
ghost use Rattle.mgmt_objects.specs.Floats.{items_have_float-map};
ghost use Rattle.mgmt_objects.specs.SetObjects.{named_module_data, set_data};

use crate::shown::{Shown, values};
use rollout_model::{DistributionSet, ModuleNo};
use serde_json::{Value, json};
use std::alloc::{AllocError, Global};

/// A module as a set names it.
impl Shown for ModuleNo {
    ghost shows = { named_module_data };

    ghost has_no_float = { λ n. refl };

    fn value(&self, alloc: Global) -> Result<Value, AllocError> {
        json!(in alloc; { "id": self.get() })
    }
}

impl Shown for DistributionSet {
    ghost shows = { set_data };

    ghost has_no_float = { λ s. rw (items_have_float-map named_module_data (λ n. refl) s.label.modules) refl };

    fn value(&self, alloc: Global) -> Result<Value, AllocError> {
        let modules = values(alloc, self.label.modules.as_slice())?;
        let name = self.label.name.as_str();
        let version = self.label.version.as_str();
        json!(in alloc; {
            "id": self.number.get(),
            "modules": Value::Array(modules),
            "name": name,
            "version": version,
        })
    }
}
