//! Feedback on deployments.

ghost use Rattle.rollout_machine.specs.Actions.{outcome_of_deployment};
ghost use Rattle.rollout_machine.specs.Commands.{Feedback};
ghost use Rattle.campaign_core.specs.RolloutChecks.{feedback_refusal, Decides, DecidesAs, JudgesFeedback, of_device};
ghost use Rattle.campaign_core.specs.declared.rollout_checks.RolloutCommandView.TheVariants as seen;
ghost use Rattle.campaign_core.specs.declared.rollout_checks.RolloutChange.TheVariants as made;

use super::RolloutChange;
use super::actions::{ActionChange, change};
use super::of_devices::{DeviceAction, FeedbackView, is_news, own_action};
use rollout_machine::outcome_of_deployment;
use rollout_model::limits::NOTE_LIMIT;
use rollout_model::{DeploymentWord, DeviceFeedback, Refusal};

/// What becomes of an action by feedback on its deployment, or the first refusal that applies.
fn after_feedback(
    own_action: &DeviceAction,
    word: DeploymentWord,
) -> Result<Option<ActionChange>, Refusal>
    ensures { JudgesFeedback own_action.now (feedback_refusal word own_action.now) (outcome_of_deployment word) own_action.now.action.canceling result }
{
    let action = own_action.action;
    let gives = outcome_of_deployment(word);
    if !is_news(own_action, gives)? {
        return Ok(None);
    }
    if gives.is_none() && own_action.notes >= NOTE_LIMIT {
        return Err(Refusal::Quota);
    }
    Ok(Some(change(&action, gives, action.canceling)))
}

/// The verdict on feedback on a deployment, of an action that the device has: what becomes of it, or nothing where it had the same
/// outcome, or had heard it by its number.
pub fn feedback(
    own_action: &DeviceAction,
    given: &DeviceFeedback<DeploymentWord>,
) -> Result<Option<ActionChange>, Refusal>
    ensures decides { DecidesAs made.Feedback (seen.Feedback (of_device own_action.now)) (Feedback given.now) result }
    ensures judges { JudgesFeedback own_action.now (feedback_refusal given.now.word own_action.now) (outcome_of_deployment given.now.word)
        own_action.now.action.canceling result }
{
    after_feedback(own_action, given.word)
}

/// The verdict on feedback on a deployment, of whatever action.
pub(crate) fn check_feedback(
    view: &FeedbackView,
    given: &DeviceFeedback<DeploymentWord>,
) -> Result<RolloutChange, Refusal>
    ensures { Decides (seen.Feedback view.now) (Feedback given.now) result }
{
    let own_action = own_action(view.misses_device, &view.own_action)?;
    let change = feedback(&own_action, given)?;
    Ok(RolloutChange::Feedback(change))
}
