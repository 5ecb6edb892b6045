//! Software modules.

ghost use Rattle.std.specs.Prelude.{◌≡◌, IfOk};

use crate::number::ModuleNo;
use crate::text::Text;
use std::alloc::{AllocError, Global};

/// What a module is added by: no two modules of a desk have the same name, kind and version.
#[derive(PartialEq, Eq, Drop)]
pub struct ModuleLabel {
    pub name: Text,
    /// What the module is for, as `os` or `application`.
    pub kind: Text,
    pub version: Text,
}

impl ModuleLabel {
    /// The same label in memory of its own.
    pub fn copy(&self, alloc: Global) -> Result<ModuleLabel, AllocError>
        ensures { IfOk result (λ label. label ≡ self.now) }
    {
        let name = self.name.copy(alloc)?;
        let kind = self.kind.copy(alloc)?;
        let version = self.version.copy(alloc)?;
        Ok(ModuleLabel {
            name,
            kind,
            version,
        })
    }
}

/// A module as it is shown.
#[derive(Drop)]
pub struct Module {
    pub number: ModuleNo,
    /// Whether a distribution set names it, so that it takes no further artifact.
    pub locked: bool,
    pub label: ModuleLabel,
}
