//! Distribution sets.

ghost use Rattle.std.specs.Prelude.{◌≡◌, IfOk};

use crate::module_list::ModuleList;
use crate::number::SetNo;
use crate::text::Text;
use std::alloc::{AllocError, Global};

/// What a distribution set is added by: no two sets of a desk have the same name and version.
#[derive(Drop)]
pub struct SetLabel {
    pub name: Text,
    pub version: Text,
    /// What the set installs, in this order.
    pub modules: ModuleList,
}

impl SetLabel {
    /// The same label in memory of its own.
    pub fn copy(&self, alloc: Global) -> Result<SetLabel, AllocError>
        ensures { IfOk result (λ label. label ≡ self.now) }
    {
        let name = self.name.copy(alloc)?;
        let version = self.version.copy(alloc)?;
        let modules = self.modules.copy(alloc)?;
        Ok(SetLabel {
            name,
            version,
            modules,
        })
    }
}

/// A distribution set as it is shown.
#[derive(Drop)]
pub struct DistributionSet {
    pub number: SetNo,
    pub label: SetLabel,
}
