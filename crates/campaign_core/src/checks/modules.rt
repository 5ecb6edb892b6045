//! Adding a software module.

ghost use Rattle.std.specs.Prelude.{◌≡◌, ◌+◌, ◌<◌, Some, None, MatchResult};
ghost use Rattle.campaign_core.specs.Checks.{module_refusal};

use rollout_model::limits::MODULE_LIMIT;
use rollout_model::{ModuleNo, Refusal};

/// What adding a module rests on.
#[derive(Clone, Copy)]
pub struct ModuleView {
    /// Whether a module of the same name, kind and version is there.
    pub same: bool,
    /// How many modules are there.
    pub count: u32,
}

/// The module that is added.
#[derive(Clone, Copy)]
pub struct NewModule {
    pub number: ModuleNo,
}

/// The number after so many modules.
fn number_after(count: u32) -> ModuleNo
    requires { count < 2147483647 }
    ensures { result ≡ count + 1 }
{
    ModuleNo::new(count + 1).unwrap()
}

/// The module that is added, or the first refusal that applies.
pub fn add_module(view: &ModuleView) -> Result<NewModule, Refusal>
    ensures { MatchResult result
        (λ m. (module_refusal view.now ≡ None) × (m.number ≡ view.now.count + 1))
        (λ refusal. module_refusal view.now ≡ Some refusal) }
{
    if view.same {
        return Err(Refusal::Exists);
    }
    if view.count >= MODULE_LIMIT {
        return Err(Refusal::Quota);
    }
    let number = number_after(view.count);
    Ok(NewModule { number })
}
