//! What the types of the parts of a command on rollouts promise.

ghost use Rattle.std.specs.Prelude.{◌≡◌, ◌&&◌, true};
ghost use Rattle.rollout_machine.specs.CommandRules.{is_device_feedback, is_plan};
ghost use Rattle.rollout_model.specs.Rules.{is_number, is_word};

use rollout_model::{Cancel, DeviceFeedback, RolloutNo, RolloutPlan};

pub(super) fn plan_is_well_formed(plan: &RolloutPlan)
    ensures { is_plan plan.now ≡ true }
{
    let _name = plan.name.as_str();
    let _set = plan.set_number.get();
    let _filter = plan.filter_text.as_str();
    let _groups = plan.groups.count();
    let _definitions = plan.groups.definitions();
    let _success = plan.success.get();
    let _error = plan.error.get();
}

/// The number of a rollout keeps the rule of numbers.
pub fn number_is_well_formed(number: RolloutNo)
    ensures { is_number number ≡ true }
{
    let _number = number.get();
}

/// A cancel keeps the rules of commands.
pub fn cancel_is_well_formed(cancel: &Cancel)
    ensures { (is_word cancel.now.target && is_number cancel.now.action) ≡ true }
{
    let _target = cancel.target.as_str();
    let _action = cancel.action.get();
}

/// Feedback of either kind keeps the rules of its parts.
pub fn feedback_is_well_formed<W: Copy>(feedback: &DeviceFeedback<W>)
    ensures { is_device_feedback feedback.now ≡ true }
{
    let _id = feedback.credential.id.as_str();
    let _digest = feedback.credential.digest.as_bytes();
    let _action = feedback.action.get();
    let _details = feedback.details.as_slice();
    if let Some(number) = &feedback.number {
        let _number = number.get();
    }
}
