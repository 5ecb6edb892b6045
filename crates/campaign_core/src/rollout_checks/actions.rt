//! Cancels, and what becomes of single actions.

ghost use Rattle.std.specs.Prelude.{◌≡◌, Some};
ghost use Rattle.rollout_machine.specs.Commands.{Cancel as CancelCommand};
ghost use Rattle.campaign_core.specs.RolloutChecks.{change_by, ended_by, outcome_forced, Decides, DecidesAs, JudgesCancel};
ghost use Rattle.campaign_core.specs.declared.rollout_checks.RolloutCommandView.TheVariants as seen;
ghost use Rattle.campaign_core.specs.declared.rollout_checks.RolloutChange.TheVariants as made;

use super::RolloutChange;
use crate::own_group::{Following, OwnView, after_feedback};
use rollout_machine::Outcome;
use rollout_model::{Cancel, Refusal, RolloutNo};

/// An action and its rollout.
#[derive(Clone, Copy)]
pub struct ActionView {
    pub outcome: Option<Outcome>,
    pub canceling: bool,
    /// Which rollout it is of.
    pub number: RolloutNo,
    /// That rollout, seen from the action's group.
    pub rollout: OwnView,
}

/// What the cancel of an action rests on.
#[derive(Clone, Copy)]
pub struct CancelView {
    /// Whether its group is started.
    pub started: bool,
    pub action: ActionView,
}

/// How an action of a group ended, and what that does to its rollout.
#[derive(Clone, Copy)]
pub struct Ending {
    pub rollout: RolloutNo,
    /// The group that counts the outcome.
    pub group: u32,
    pub outcome: Outcome,
    pub following: Following,
}

/// What becomes of an open action.
#[derive(Clone, Copy)]
pub enum ActionChange {
    /// It stays open, canceling or not.
    StaysOpen { canceling: bool },
    /// It gets its outcome.
    Ends(Ending),
}

/// What an outcome of the action does.
fn ending_by(view: &ActionView, outcome: Outcome) -> Ending
    ensures { result ≡ ended_by view.now outcome }
{
    Ending {
        rollout: view.number,
        group: view.rollout.own.number,
        outcome,
        following: after_feedback(&view.rollout, outcome),
    }
}

/// What becomes of the open action by what gives it an outcome, or leaves it canceling or not.
pub(crate) fn change(view: &ActionView, gives: Option<Outcome>, canceling: bool) -> ActionChange
    ensures { result ≡ change_by view.now gives canceling }
{
    match gives {
        Some(outcome) => ActionChange::Ends(ending_by(view, outcome)),
        None => ActionChange::StaysOpen { canceling },
    }
}

/// The outcome that a cancel gives an open action: a second one by force ends it.
fn outcome_of_force(canceling: bool, force: bool) -> Option<Outcome>
    ensures { result ≡ outcome_forced canceling force }
{
    if force && canceling {
        Some(Outcome::Gone)
    } else {
        None
    }
}

/// What becomes of the action by its cancel, or the first refusal that applies.
fn after_cancel(view: &CancelView, force: bool) -> Result<ActionChange, Refusal>
    ensures { JudgesCancel view.now force result }
{
    let action = view.action;
    if action.outcome.is_some() {
        return Err(Refusal::ClosedAction);
    }
    if !view.started || action.canceling && !force {
        return Err(Refusal::WrongState);
    }
    Ok(change(&action, outcome_of_force(action.canceling, force), true))
}

/// The verdict on the cancel of an action that its target has: what becomes of it.
pub fn cancel(view: &CancelView, asked: &Cancel) -> Result<ActionChange, Refusal>
    ensures decides { DecidesAs made.Cancel (seen.Cancel (Some view.now)) (CancelCommand asked.now.target asked.now.action asked.now.force) result }
    ensures judges { JudgesCancel view.now asked.now.force result }
{
    after_cancel(view, asked.force)
}

/// The verdict on a cancel, of whatever action.
pub(crate) fn check_cancel(
    view: &Option<CancelView>,
    asked: &Cancel,
) -> Result<RolloutChange, Refusal>
    ensures { Decides (seen.Cancel view.now) (CancelCommand asked.now.target asked.now.action asked.now.force) result }
{
    let Some(view) = view else {
        return Err(Refusal::NotFound);
    };
    let change = cancel(view, asked)?;
    Ok(RolloutChange::Cancel(change))
}
