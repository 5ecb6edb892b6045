//! How a report stands among what its action has heard, by its number.

ghost use Rattle.std.specs.Prelude.{◌≡◌, ◌+◌, Some};
ghost use Rattle.rollout_machine.specs.Reports.{reported, same_entry, same_note, same_said, OfDeployment, OfCancel};
ghost use Rattle.desk_commands.specs.private.SeenReports.{StandsAgainst, StandsApart, StandsAt, asked, more_reads};
ghost use Rattle.desk_commands.specs.private.SeenReports.{number_asked, reads_for, standing_in, with_number};
ghost use Rattle.desk_reads.specs.AtLists.{FailsAtListsIn, FindsAtListsIn};
ghost use Rattle.desk_store.specs.Failing.{FailsGiven};
ghost use Rattle.desk_commands.specs.Failures.{IsLastOf};
ghost use Rattle.desk_store.specs.Counting.{AddsIn};
ghost use Rattle.desk_store.specs.Changing.{StaysIn};

use crate::seen_actions::SeenAction;
use desk_store::{Calls, Fault, PlacedNumber, read_entry, read_last_number};
use rollout_machine::Standing;
use rollout_model::{
    CancelWord, DeploymentWord, Details, DeviceFeedback, FeedbackNumber, HistoryEntry, NoteWord,
    Said,
};
use sqlite::Alter;

/// How a report stands among what its action has heard.
#[derive(Clone, Copy)]
pub(crate) struct SeenReport {
    pub(crate) standing: Standing,
    /// How many numbers its action has. Asked for on an open action, where the report bears one.
    pub(crate) numbers: u32,
}

fn same_note(a: NoteWord, b: NoteWord) -> bool
    ensures { result ≡ same_note a b }
{
    match (a, b) {
        (NoteWord::Proceeding, NoteWord::Proceeding) => true,
        (NoteWord::Scheduled, NoteWord::Scheduled) => true,
        (NoteWord::Resumed, NoteWord::Resumed) => true,
        _ => false,
    }
}

fn same_deployment(a: DeploymentWord, b: DeploymentWord) -> bool
    ensures { result ≡ same_said (OfDeployment a) (OfDeployment b) }
{
    match (a, b) {
        (DeploymentWord::Succeeded, DeploymentWord::Succeeded) => true,
        (DeploymentWord::Failed, DeploymentWord::Failed) => true,
        (DeploymentWord::Rejected, DeploymentWord::Rejected) => true,
        (DeploymentWord::Noted(a), DeploymentWord::Noted(b)) => same_note(a, b),
        _ => false,
    }
}

fn same_cancel(a: CancelWord, b: CancelWord) -> bool
    ensures { result ≡ same_said (OfCancel a) (OfCancel b) }
{
    match (a, b) {
        (CancelWord::Closed, CancelWord::Closed) => true,
        (CancelWord::Canceled, CancelWord::Canceled) => true,
        (CancelWord::Rejected, CancelWord::Rejected) => true,
        (CancelWord::Noted(a), CancelWord::Noted(b)) => same_note(a, b),
        _ => false,
    }
}

fn same_said(a: Said, b: Said) -> bool
    ensures { result ≡ same_said a b }
{
    match (a, b) {
        (Said::Deployment(a), Said::Deployment(b)) => same_deployment(a, b),
        (Said::Cancel(a), Said::Cancel(b)) => same_cancel(a, b),
        _ => false,
    }
}

/// Whether the entry has this kind, this word and these details.
fn same_entry(entry: &HistoryEntry, said: Said, details: &Details) -> bool
    ensures { result ≡ same_entry entry.now (record { said = said; details = details.now }) }
{
    same_said(entry.said, said) && entry.details == *details
}

/// How a report of this number stands where the action's last number is this one. The entry that bears it is read only where both are
/// the same. Where it isn't there the store failed.
fn stand_against<S: Alter, W: Copy>(
    calls: &mut Calls<S>,
    last: &PlacedNumber,
    given: &DeviceFeedback<W>,
    said: Said,
    number: FeedbackNumber,
) -> Result<Standing, Fault>
    ensures stays { StaysIn S.Store calls.old calls.new result }
    ensures reads { FindsAtListsIn S.Store calls.old calls.new result
        (StandsAgainst given.now.action last.now number (reported (λ word. said) given.now).entry) }
    ensures apart { StandsApart last.now.number number result }
    ensures fails { FailsGiven S.Store (IsLastOf given.now.action last.now) calls.old calls.new result }
    ensures work { AddsIn (more_reads (standing_in (λ it. it) result)) (more_reads (standing_in (λ it. it) result)) calls.old calls.new }
{
    if last.number.get() < number.get() {
        return Ok(Standing::Fresh);
    }
    if last.number.get() > number.get() {
        return Ok(Standing::Old);
    }
    let entry = read_entry(calls, given.action, last.sequence)?.ok_or(Fault::Broken)?;
    if same_entry(&entry, said, &given.details) {
        Ok(Standing::Again)
    } else {
        Ok(Standing::Old)
    }
}

/// How a report of this number stands among what its action has heard.
fn see_numbered<S: Alter, W: Copy>(
    calls: &mut Calls<S>,
    given: &DeviceFeedback<W>,
    said: Said,
    number: FeedbackNumber,
) -> Result<SeenReport, Fault>
    ensures stays { StaysIn S.Store calls.old calls.new result }
    ensures reads { FindsAtListsIn S.Store calls.old calls.new result
        (StandsAt given.now.action (with_number (reported (λ word. said) given.now) (Some number))) }
    ensures fails { FailsAtListsIn S.Store calls.old calls.new result }
    ensures work { AddsIn (1 + more_reads (standing_in (λ seen. seen.standing) result))
        (1 + more_reads (standing_in (λ seen. seen.standing) result)) calls.old calls.new }
{
    let found = read_last_number(calls, given.action)?;
    match &found {
        Some(last) => {
            let standing = stand_against(calls, &last.it, given, said, number)?;
            Ok(SeenReport {
                standing,
                numbers: last.place,
            })
        }
        None => Ok(SeenReport {
            standing: Standing::Fresh,
            numbers: 0,
        }),
    }
}

/// The number that is asked for: that of a report on an open action.
fn number_asked(
    action: &Option<SeenAction>,
    number: Option<FeedbackNumber>,
) -> Option<FeedbackNumber>
    ensures { result ≡ number_asked action.now number }
{
    match action {
        Some(seen) => {
            if seen.action.outcome.is_none() {
                number
            } else {
                None
            }
        }
        None => None,
    }
}

/// How a report stands among what its action has heard, where that is open. On another action nothing asks for it.
pub(crate) fn see_report<S: Alter, W: Copy>(
    calls: &mut Calls<S>,
    action: &Option<SeenAction>,
    given: &DeviceFeedback<W>,
    said: Said,
) -> Result<SeenReport, Fault>
    ensures stays { StaysIn S.Store calls.old calls.new result }
    ensures reads { FindsAtListsIn S.Store calls.old calls.new result
        (StandsAt given.now.action (asked action.now (reported (λ word. said) given.now))) }
    ensures fails { FailsAtListsIn S.Store calls.old calls.new result }
    ensures work { AddsIn (reads_for given.now.number (standing_in (λ seen. seen.standing) result))
        (reads_for given.now.number (standing_in (λ seen. seen.standing) result)) calls.old calls.new }
{
    match number_asked(action, given.number) {
        Some(number) => see_numbered(calls, given, said, number),
        None => Ok(SeenReport {
            standing: Standing::Fresh,
            numbers: 0,
        }),
    }
}
