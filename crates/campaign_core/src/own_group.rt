//! A rollout as the outcome of an action sees it, and what the outcome does to it: the group of the action decides.

ghost use Rattle.std.specs.Prelude.{◌≡◌, ◌+◌, ◌&&◌, not};
ghost use Rattle.rollout_machine.specs.Counts.{reaches};
ghost use Rattle.rollout_machine.specs.Effects.{error_begins};
ghost use Rattle.campaign_core.specs.OwnGroups.{following, FollowsOutcome, OwnGroupDecides};

use crate::thresholds;
use rollout_machine::{GroupView, Outcome};

/// A rollout before an outcome, with the group of the action concerned.
#[derive(Clone, Copy)]
pub struct OwnView {
    pub paused: bool,
    pub own: GroupView,
    /// Whether that group is started, and the one behind it is there and waits for its start.
    pub next_waits: bool,
}

/// What an outcome does to its rollout beside being counted.
#[derive(Clone, Copy)]
pub enum Following {
    Nothing,
    Pauses,
    /// The group behind the own one.
    StartsNext,
}

/// Whether one success more in the own group starts the next one.
fn goes_on(view: &OwnView) -> bool
    ensures { result ≡ (view.now.next_waits && (not view.now.paused && reaches (view.now.own.ok + 1) view.now.own.size view.now.own.success)) }
{
    let own = view.own;
    let good = own.ok as u64 + 1;
    view.next_waits && (!view.paused && thresholds::reaches(good, own.size, own.success))
}

/// Whether one failure more in the own group begins its error.
fn fails(view: &OwnView) -> bool
    ensures { result ≡ error_begins view.now.own.bad (view.now.own.bad + 1) view.now.own.size view.now.own.error }
{
    let own = view.own;
    let before = own.bad as u64;
    thresholds::begins(before, before + 1, own.size, own.error)
}

/// What an outcome in the own group does.
fn what_follows(view: &OwnView, outcome: Outcome) -> Following
    ensures { result ≡ following view.now outcome }
{
    match outcome {
        Outcome::Good => {
            if goes_on(view) {
                Following::StartsNext
            } else {
                Following::Nothing
            }
        }
        Outcome::Bad => {
            if fails(view) {
                Following::Pauses
            } else {
                Following::Nothing
            }
        }
        Outcome::Gone => Following::Nothing,
    }
}

/// What the first final outcome of an action of the own group does to the rollout: a failure pauses it where the group's
/// error begins; a success starts the next group where the own one has success, is the last that was started, and the
/// rollout isn't paused. Takes no memory.
pub fn after_feedback(view: &OwnView, outcome: Outcome) -> Following
    ensures following { result ≡ following view.now outcome }
    ensures follows { FollowsOutcome view.now outcome result }
{
    what_follows(view, outcome)
}

/// What an outcome does to its rollout is told by the action's own group, and by whether the group behind it waits: no other
/// group has to be seen.
pub fn own_group_decides()
    ensures { OwnGroupDecides }
{}
