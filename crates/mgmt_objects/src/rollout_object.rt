//! Rollouts and their groups in replies.

ghost use Rattle.std.specs.Prelude.{◌≡◌, refl};
ghost use Rattle.mgmt_objects.specs.RolloutObjects.{group_data, rollout_data};

use crate::shown::Shown;
use rollout_model::{Group, Rollout};
use serde_json::{Value, json};
use std::alloc::{AllocError, Global};

impl Shown for Rollout {
    ghost shows = { rollout_data };

    ghost has_no_float = { λ r. refl };

    fn value(&self, alloc: Global) -> Result<Value, AllocError> {
        let name = self.name.as_str();
        let filter_text = self.filter_text.as_str();
        json!(in alloc; {
            "distributionSetId": self.set_number.get(),
            "id": self.number.get(),
            "name": name,
            "status": self.word.as_str(),
            "targetFilterQuery": filter_text,
            "totalGroups": self.groups,
            "totalTargets": self.targets,
        })
    }
}

impl Shown for Group {
    ghost shows = { group_data };

    ghost has_no_float = { λ g. refl };

    fn value(&self, alloc: Global) -> Result<Value, AllocError> {
        json!(in alloc; {
            "bad": self.bad,
            "error": self.error,
            "gone": self.gone,
            "id": self.number,
            "ok": self.ok,
            "size": self.size,
            "status": self.word.as_str(),
            "success": self.success,
        })
    }
}
