//! What a resume and a trigger do to their rollout beside what they are given for.

ghost use Rattle.std.specs.Prelude.{◌≡◌, false, nat_lt};
ghost use Rattle.rollout_machine.specs.Effects.{next_if, starts_next, FollowsResume, FollowsTrigger};

use crate::thresholds;
use rollout_machine::{Effects, RolloutView};

/// The next group, if there is one.
fn next_group(view: &RolloutView) -> Option<u32>
    ensures { result ≡ next_if (nat_lt view.now.last.number view.now.groups) view.now.last.number }
{
    let last = view.last.number;
    if last < view.groups {
        Some(last + 1)
    } else {
        None
    }
}

/// The next group, where the last started one has success.
fn next_where(view: &RolloutView) -> Option<u32>
    ensures { result ≡ starts_next view.now false view.now.last.ok }
{
    let last = view.last;
    if thresholds::reaches(last.ok as u64, last.size, last.success) {
        next_group(view)
    } else {
        None
    }
}

/// What a resume does to the rollout beside ending its pause: where the last started group has success, the next one
/// starts. Takes no memory.
pub fn after_resume(view: &RolloutView) -> Effects
    ensures pauses { result.pauses ≡ false }
    ensures starts { result.starts ≡ starts_next view.now false view.now.last.ok }
    ensures follows { FollowsResume view.now result }
{
    Effects {
        pauses: false,
        starts: next_where(view),
    }
}

/// What a trigger does to the rollout: the next group starts, whatever the success of the last one. Takes no memory.
pub fn after_trigger(view: &RolloutView) -> Effects
    ensures pauses { result.pauses ≡ false }
    ensures starts { result.starts ≡ next_if (nat_lt view.now.last.number view.now.groups) view.now.last.number }
    ensures follows { FollowsTrigger view.now result }
{
    Effects {
        pauses: false,
        starts: next_group(view),
    }
}
