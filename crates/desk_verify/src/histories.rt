//! Whether the outcomes of actions fit their histories.

ghost use Rattle.std.specs.Prelude.{◌≡◌};
ghost use Rattle.std.specs.List.{AllByRecursion};
ghost use Rattle.desk_records.specs.Schema.{Feedbacks};
ghost use Rattle.desk_store.specs.Blaming.{BlamesGiven, ReadsOf};
ghost use Rattle.desk_store.specs.Changing.{FindsTables, StaysIn};
ghost use Rattle.desk_verify.specs.ActionChecks.{FitsItsEntries, IsGiven, PassesHistory, first_said, is_fit};
ghost use Rattle.desk_verify.specs.Agreement.{Settles};
ghost use Rattle.desk_verify.specs.Checking.{ChecksActions};

use crate::turns::sequences_rise;
use desk_store::{Calls, Fault, ListedAction, SequencedEntry, list_history, read_numbers};
use rollout_machine::{Outcome, is_outcome, outcome_said};
use rollout_model::ActionNo;
use sqlite::Alter;

/// Whether the outcome of each action fits its history.
pub(crate) fn fit_histories<S: Alter>(
    calls: &mut Calls<S>,
    actions: &[ListedAction],
) -> Result<bool, Fault>
    ensures stays { StaysIn S.Store calls.old calls.new result }
    ensures judges { FindsTables S.Store calls.old calls.new result
        (λ t fit. Settles (AllByRecursion (PassesHistory t) actions.now) (AllByRecursion (FitsItsEntries t) actions.now) fit) }
    ensures blames { BlamesGiven S.Store ChecksActions calls.old calls.new result }
{
    for action in actions {
        if !fits_history(calls, action)? {
            return Ok(false);
        }
    }
    Ok(true)
}

/// Whether the outcome of an action fits its history. Its numbers are read beside, and nothing is recounted of them.
fn fits_history<S: Alter>(calls: &mut Calls<S>, action: &ListedAction) -> Result<bool, Fault>
    ensures stays { StaysIn S.Store calls.old calls.new result }
    ensures judges { FindsTables S.Store calls.old calls.new result (λ t fits. Settles (PassesHistory t action.now) (FitsItsEntries t action.now) fits) }
    ensures blames { BlamesGiven S.Store ChecksActions calls.old calls.new result }
{
    let given = find_given(calls, action.number)?;
    read_numbers(calls, action.number)?;
    Ok(is_fit(given, action.action.outcome))
}

/// The outcome that the history of an action gives, if it gives one. Two entries at one place of its
/// sequence are `Broken`.
fn find_given<S: Alter>(calls: &mut Calls<S>, number: ActionNo) -> Result<Option<Outcome>, Fault>
    ensures stays { StaysIn S.Store calls.old calls.new result }
    ensures reads { FindsTables S.Store calls.old calls.new result (λ t given. IsGiven t number given) }
    ensures blames { BlamesGiven S.Store (ReadsOf Feedbacks) calls.old calls.new result }
{
    let entries = list_history(calls, number)?;
    if !sequences_rise(&entries) {
        return Err(Fault::Broken);
    }
    Ok(first_said(&entries))
}

/// The outcome of the first entry that gives one.
fn first_said(entries: &[SequencedEntry]) -> Option<Outcome>
    ensures { result ≡ first_said entries.now }
{
    for entry in entries {
        if let Some(outcome) = outcome_said(entry.entry.said) {
            return Some(outcome);
        }
    }
    None
}

/// Whether an action has the outcome that is given; where none is, it is open or was given up.
fn is_fit(given: Option<Outcome>, outcome: Option<Outcome>) -> bool
    ensures { result ≡ is_fit given outcome }
{
    match given {
        Some(given) => is_outcome(given, outcome),
        None => outcome.is_none() || is_outcome(Outcome::Gone, outcome),
    }
}
