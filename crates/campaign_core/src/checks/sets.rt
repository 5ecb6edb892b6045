//! Adding a distribution set.

ghost use Rattle.std.specs.Prelude.{◌≡◌, ◌+◌, ◌<◌, Some, None, MatchResult};
ghost use Rattle.campaign_core.specs.Checks.{set_refusal};

use rollout_model::limits::SET_LIMIT;
use rollout_model::{Refusal, SetNo};

/// What adding a set rests on.
#[derive(Clone, Copy)]
pub struct SetView {
    /// Whether one of its modules is not there.
    pub misses_module: bool,
    /// Whether a set of the same name and version is there.
    pub same: bool,
    /// How many sets are there.
    pub count: u32,
}

/// The set that is added.
#[derive(Clone, Copy)]
pub struct NewSet {
    pub number: SetNo,
}

/// The number after so many sets.
fn number_after(count: u32) -> SetNo
    requires { count < 2147483647 }
    ensures { result ≡ count + 1 }
{
    SetNo::new(count + 1).unwrap()
}

/// The set that is added, or the first refusal that applies.
pub fn add_set(view: &SetView) -> Result<NewSet, Refusal>
    ensures { MatchResult result
        (λ s. (set_refusal view.now ≡ None) × (s.number ≡ view.now.count + 1))
        (λ refusal. set_refusal view.now ≡ Some refusal) }
{
    if view.misses_module {
        return Err(Refusal::NotFound);
    }
    if view.same {
        return Err(Refusal::Exists);
    }
    if view.count >= SET_LIMIT {
        return Err(Refusal::Quota);
    }
    let number = number_after(view.count);
    Ok(NewSet { number })
}
