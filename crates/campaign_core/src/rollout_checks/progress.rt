//! How a rollout goes on: by a resume, and by a trigger.

ghost use Rattle.std.specs.Prelude.{◌≡◌, ℕ, Some, None, MatchResult};
ghost use Rattle.rollout_machine.specs.Commands.{Resume, TriggerNext};
ghost use Rattle.campaign_core.specs.RolloutChecks.{Decides};
ghost use Rattle.campaign_core.specs.declared.rollout_checks.RolloutCommandView.TheVariants as seen;

use super::RolloutChange;
use super::standing::{must_be_paused, must_run};
use crate::effects::{after_resume, after_trigger};
use rollout_machine::RolloutView;
use rollout_model::{Refusal, RolloutWord};

/// What a resume of a rollout rests on.
#[derive(Clone, Copy)]
pub struct ResumeView {
    pub word: RolloutWord,
    /// Seen from its last started group.
    pub rollout: RolloutView,
}

/// What a trigger of a rollout's next group rests on.
#[derive(Clone, Copy)]
pub struct TriggerView {
    pub word: RolloutWord,
    /// Whether one of its groups is not started.
    pub has_next: bool,
    /// Seen from its last started group.
    pub rollout: RolloutView,
}

/// The verdict on a resume of a rollout.
pub fn resume(view: &Option<ResumeView>) -> Result<RolloutChange, Refusal>
    ensures { (r : ℕ) → Decides (seen.Resume view.now) (Resume r) result }
{
    let Some(view) = view else {
        return Err(Refusal::NotFound);
    };
    must_be_paused(Some(view.word))?;
    Ok(RolloutChange::Resume(after_resume(&view.rollout)))
}

/// The verdict on a trigger of a rollout's next group.
pub fn trigger(view: &Option<TriggerView>) -> Result<RolloutChange, Refusal>
    ensures { (r : ℕ) → Decides (seen.TriggerNext view.now) (TriggerNext r) result }
{
    let Some(view) = view else {
        return Err(Refusal::NotFound);
    };
    must_run(Some(view.word))?;
    if !view.has_next {
        return Err(Refusal::WrongState);
    }
    Ok(RolloutChange::TriggerNext(after_trigger(&view.rollout)))
}
