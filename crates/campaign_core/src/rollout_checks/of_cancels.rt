//! Feedback on cancels.

ghost use Rattle.std.specs.Prelude.{◌≡◌};
ghost use Rattle.rollout_machine.specs.Actions.{outcome_of_cancel};
ghost use Rattle.rollout_machine.specs.Commands.{CancelFeedback};
ghost use Rattle.campaign_core.specs.RolloutChecks.{cancel_feedback_refusal, canceling_after, Decides, DecidesAs, JudgesFeedback, of_device};
ghost use Rattle.campaign_core.specs.declared.rollout_checks.RolloutCommandView.TheVariants as seen;
ghost use Rattle.campaign_core.specs.declared.rollout_checks.RolloutChange.TheVariants as made;

use super::RolloutChange;
use super::actions::{ActionChange, change};
use super::of_devices::{DeviceAction, FeedbackView, is_news, own_action};
use rollout_machine::{outcome_of_cancel, says_note};
use rollout_model::limits::NOTE_LIMIT;
use rollout_model::{CancelWord, DeviceFeedback, Refusal, Said};

/// Whether an action is canceling after feedback on its cancel: a rejection ends that.
fn canceling_after(word: CancelWord, canceling: bool) -> bool
    ensures { result ≡ canceling_after word canceling }
{
    match word {
        CancelWord::Rejected => false,
        CancelWord::Closed | CancelWord::Canceled | CancelWord::Noted(_) => canceling,
    }
}

/// What becomes of an action by feedback on its cancel, or the first refusal that applies.
fn after_cancel_feedback(
    own_action: &DeviceAction,
    word: CancelWord,
) -> Result<Option<ActionChange>, Refusal>
    ensures { JudgesFeedback own_action.now (cancel_feedback_refusal word own_action.now) (outcome_of_cancel word)
        (canceling_after word own_action.now.action.canceling) result }
{
    let action = own_action.action;
    let gives = outcome_of_cancel(word);
    if !is_news(own_action, gives)? {
        return Ok(None);
    }
    if !action.canceling {
        return Err(Refusal::WrongState);
    }
    if says_note(Said::Cancel(word)) && own_action.notes >= NOTE_LIMIT {
        return Err(Refusal::Quota);
    }
    let canceling = canceling_after(word, action.canceling);
    Ok(Some(change(&action, gives, canceling)))
}

/// The verdict on feedback on a cancel, of an action that the device has: what becomes of it, or nothing where it had the same
/// outcome, or had heard it by its number.
pub fn cancel_feedback(
    own_action: &DeviceAction,
    given: &DeviceFeedback<CancelWord>,
) -> Result<Option<ActionChange>, Refusal>
    ensures decides { DecidesAs made.CancelFeedback (seen.CancelFeedback (of_device own_action.now)) (CancelFeedback given.now) result }
    ensures judges { JudgesFeedback own_action.now (cancel_feedback_refusal given.now.word own_action.now) (outcome_of_cancel given.now.word)
        (canceling_after given.now.word own_action.now.action.canceling) result }
{
    after_cancel_feedback(own_action, given.word)
}

/// The verdict on feedback on a cancel, of whatever action.
pub(crate) fn check_cancel_feedback(
    view: &FeedbackView,
    given: &DeviceFeedback<CancelWord>,
) -> Result<RolloutChange, Refusal>
    ensures { Decides (seen.CancelFeedback view.now) (CancelFeedback given.now) result }
{
    let own_action = own_action(view.misses_device, &view.own_action)?;
    let change = cancel_feedback(&own_action, given)?;
    Ok(RolloutChange::CancelFeedback(change))
}
