//! Feedback of devices, on whichever of their actions.

ghost use Rattle.std.specs.Prelude.{◌≡◌, false, Some, None, MatchResult};
ghost use Rattle.rollout_machine.specs.Ranges.{is_some_and};
ghost use Rattle.rollout_machine.specs.Counts.{is_outcome};
ghost use Rattle.campaign_core.specs.RolloutChecks.{device_refusal, is_fresh, report_refusal};

use super::actions::ActionView;
use rollout_machine::{Outcome, Standing, is_outcome};
use rollout_model::Refusal;

/// An action of the device that the feedback is from, whose group is started.
#[derive(Clone, Copy)]
pub struct DeviceAction {
    /// How many notes were taken.
    pub notes: u32,
    /// How the feedback stands among what the action has heard. It matters only while the action is open.
    pub standing: Standing,
    pub action: ActionView,
}

/// What feedback rests on.
#[derive(Clone, Copy)]
pub struct FeedbackView {
    /// Whether no target has the device's id and the digest of its token.
    pub misses_device: bool,
    /// The action, where it is the device's and its group is started.
    pub own_action: Option<DeviceAction>,
}

/// Whether the outcome that an action had is given again.
fn is_same(gives: Option<Outcome>, had: Outcome) -> bool
    ensures { result ≡ is_some_and (λ o. is_outcome o (Some had)) gives }
{
    match gives {
        Some(given) => is_outcome(given, Some(had)),
        None => false,
    }
}

/// Whether the feedback is new to its action: not where it gives the same outcome again, or is sent again with its number. Or the first
/// refusal that applies.
pub(crate) fn is_news(own_action: &DeviceAction, gives: Option<Outcome>) -> Result<bool, Refusal>
    ensures { MatchResult result
        (λ news. (report_refusal gives own_action.now ≡ None) × (news ≡ is_fresh own_action.now))
        (λ refusal. report_refusal gives own_action.now ≡ Some refusal) }
{
    if let Some(had) = own_action.action.outcome {
        return if is_same(gives, had) {
            Ok(false)
        } else {
            Err(Refusal::ClosedAction)
        };
    }
    match own_action.standing {
        Standing::Fresh => Ok(true),
        Standing::Again => Ok(false),
        Standing::Old => Err(Refusal::OldNumber),
    }
}

/// The action that feedback of a device is on, as it was found where it is the device's and its group is started, or the first refusal
/// that applies.
pub fn own_action<A: Copy>(misses_device: bool, found: &Option<A>) -> Result<A, Refusal>
    ensures { MatchResult result
        (λ a. (misses_device ≡ false) × (found.now ≡ Some a))
        (λ refusal. device_refusal misses_device found.now ≡ Some refusal) }
{
    if misses_device {
        return Err(Refusal::Unauthorized);
    }
    match found {
        Some(own_action) => Ok(*own_action),
        None => Err(Refusal::NotFound),
    }
}
