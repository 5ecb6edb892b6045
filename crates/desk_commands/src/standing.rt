//! What is said of a rollout as a whole: it is approved, denied or paused.

ghost use Rattle.std.specs.Prelude.{◌≡◌, MatchResult, None, Some};
ghost use Rattle.desk_commands.specs.private.Standings.{JudgesCommand, WritesSaid, command_said};
ghost use Rattle.desk_store.specs.Changing.{MakesLedger, StaysIn};
ghost use Rattle.desk_commands.specs.Changing.{StepsIn};
ghost use Rattle.desk_commands.specs.Failures.{FailsStepIn};
ghost use Rattle.desk_store.specs.Counting.{RunsIn};
ghost use Rattle.desk_store.specs.Failing.{WritesIn};

use crate::step::Step;
use campaign_core::{RolloutChange, StandingView, approve, deny, pause};
use desk_reads::{SeenRollout, read_seen_rollout};
use desk_store::{Calls, Fault, change_rollout};
use rollout_model::{Approval, Refusal, Reply, RolloutNo};
use sqlite::Alter;

/// What is said of a rollout as a whole.
#[derive(Clone, Copy)]
pub(crate) enum Said {
    /// Of one that waits for approval.
    Approved,
    /// Of one that waits for approval, for good.
    Denied,
    /// Of a running one: no group starts by itself.
    Paused,
}

/// What a verdict refuses with, if it does.
pub(crate) fn refusal_in(verdict: Result<RolloutChange, Refusal>) -> Option<Refusal>
    ensures { MatchResult verdict (λ _. result ≡ None) (λ refusal. result ≡ Some refusal) }
{
    match verdict {
        Ok(_) => None,
        Err(refusal) => Some(refusal),
    }
}

/// Why this can't be said of a rollout, if it can't.
fn refusal_of(said: Said, seen: &SeenRollout) -> Option<Refusal>
    ensures { JudgesCommand (command_said said) seen.now result }
{
    let view = StandingView {
        word: Some(seen.word()),
    };
    match said {
        Said::Approved => refusal_in(approve(&view)),
        Said::Denied => refusal_in(deny(&view)),
        Said::Paused => refusal_in(pause(&view)),
    }
}

/// Writes it.
fn write_said<S: Alter>(
    calls: &mut Calls<S>,
    number: RolloutNo,
    seen: &SeenRollout,
    said: Said,
) -> Result<(), Fault>
    ensures stays { WritesIn S.Store calls.old calls.new result }
    ensures writes { MakesLedger S.Store calls.old calls.new result (WritesSaid said number seen.now) }
    ensures work { RunsIn 1 calls.old calls.new }
{
    match said {
        Said::Approved => {
            change_rollout(calls, number, Approval::Given, seen.started, seen.paused)
        }
        Said::Denied => {
            change_rollout(calls, number, Approval::Denied, seen.started, seen.paused)
        }
        Said::Paused => change_rollout(calls, number, seen.approval, seen.started, true),
    }
}

/// Says it of a rollout, where it can be said.
pub(crate) fn say<S: Alter>(
    calls: &mut Calls<S>,
    number: RolloutNo,
    said: Said,
) -> Result<Step, Fault>
    ensures stays { StaysIn S.Store calls.old calls.new result }
    ensures steps { StepsIn S.Store calls.old calls.new (command_said said number) result }
    ensures fails { FailsStepIn S.Store calls.old calls.new result }
    ensures work { RunsIn 3 calls.old calls.new }
{
    let found = read_seen_rollout(calls, number)?;
    let Some(seen) = found else {
        return Ok(Step::Refused(Refusal::NotFound));
    };
    if let Some(refusal) = refusal_of(said, &seen) {
        return Ok(Step::Refused(refusal));
    }
    write_said(calls, number, &seen, said)?;
    Ok(Step::Accepted(Reply::Done))
}
