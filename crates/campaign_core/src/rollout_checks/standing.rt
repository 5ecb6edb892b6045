//! What is said of a rollout as a whole: it is approved, denied, started or paused.

ghost use Rattle.std.specs.Prelude.{◌≡◌, ℕ, Some, None, MatchResult};
ghost use Rattle.rollout_machine.specs.Commands.{Approve, Deny, Start, Pause};
ghost use Rattle.rollout_machine.specs.StateWords.{WaitingForApproval, ReadyRollout, RunningRollout, PausedRollout};
ghost use Rattle.rollout_machine.specs.Verdicts.{same_word};
ghost use Rattle.campaign_core.specs.RolloutChecks.{word_refusal, Decides};
ghost use Rattle.campaign_core.specs.declared.rollout_checks.RolloutCommandView.TheVariants as seen;

use super::RolloutChange;
use rollout_model::{Refusal, RolloutWord};

/// What approving, denying, starting and pausing a rollout rest on.
#[derive(Clone, Copy)]
pub struct StandingView {
    /// Its state, if there is such a rollout.
    pub word: Option<RolloutWord>,
}

/// Nothing where the rollout waits for approval, or the first refusal that applies.
fn must_wait(word: Option<RolloutWord>) -> Result<(), Refusal>
    ensures { MatchResult result (λ _. word_refusal (same_word WaitingForApproval) word ≡ None)
        (λ refusal. word_refusal (same_word WaitingForApproval) word ≡ Some refusal) }
{
    match word {
        None => Err(Refusal::NotFound),
        Some(RolloutWord::WaitingForApproval) => Ok(()),
        Some(_) => Err(Refusal::WrongState),
    }
}

/// Nothing where the rollout may be started, or the first refusal that applies.
fn must_be_ready(word: Option<RolloutWord>) -> Result<(), Refusal>
    ensures { MatchResult result (λ _. word_refusal (same_word ReadyRollout) word ≡ None)
        (λ refusal. word_refusal (same_word ReadyRollout) word ≡ Some refusal) }
{
    match word {
        None => Err(Refusal::NotFound),
        Some(RolloutWord::Ready) => Ok(()),
        Some(_) => Err(Refusal::WrongState),
    }
}

/// Nothing where the rollout runs, or the first refusal that applies.
pub(crate) fn must_run(word: Option<RolloutWord>) -> Result<(), Refusal>
    ensures { MatchResult result (λ _. word_refusal (same_word RunningRollout) word ≡ None)
        (λ refusal. word_refusal (same_word RunningRollout) word ≡ Some refusal) }
{
    match word {
        None => Err(Refusal::NotFound),
        Some(RolloutWord::Running) => Ok(()),
        Some(_) => Err(Refusal::WrongState),
    }
}

/// Nothing where the rollout is paused, or the first refusal that applies.
pub(crate) fn must_be_paused(word: Option<RolloutWord>) -> Result<(), Refusal>
    ensures { MatchResult result (λ _. word_refusal (same_word PausedRollout) word ≡ None)
        (λ refusal. word_refusal (same_word PausedRollout) word ≡ Some refusal) }
{
    match word {
        None => Err(Refusal::NotFound),
        Some(RolloutWord::Paused) => Ok(()),
        Some(_) => Err(Refusal::WrongState),
    }
}

/// The verdict on the approval of a rollout.
pub fn approve(view: &StandingView) -> Result<RolloutChange, Refusal>
    ensures { (r : ℕ) → Decides (seen.Approve view.now) (Approve r) result }
{
    must_wait(view.word)?;
    Ok(RolloutChange::Approve)
}

/// The verdict on the denial of a rollout.
pub fn deny(view: &StandingView) -> Result<RolloutChange, Refusal>
    ensures { (r : ℕ) → Decides (seen.Deny view.now) (Deny r) result }
{
    must_wait(view.word)?;
    Ok(RolloutChange::Deny)
}

/// The verdict on the start of a rollout.
pub fn start(view: &StandingView) -> Result<RolloutChange, Refusal>
    ensures { (r : ℕ) → Decides (seen.Start view.now) (Start r) result }
{
    must_be_ready(view.word)?;
    Ok(RolloutChange::Start)
}

/// The verdict on a pause of a rollout.
pub fn pause(view: &StandingView) -> Result<RolloutChange, Refusal>
    ensures { (r : ℕ) → Decides (seen.Pause view.now) (Pause r) result }
{
    must_run(view.word)?;
    Ok(RolloutChange::Pause)
}
