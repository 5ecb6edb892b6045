//! What is written of feedback: the row of a history's new entry.

ghost use Rattle.std.specs.Prelude.{◌≡◌, IfErr, IfOk, string_bytes};
ghost use Rattle.desk_records.specs.Actions.{cancel_code, deployment_code, kind_code, lines_of, note_code, word_code};
ghost use Rattle.desk_records.specs.NewEntries.{TellsEntry};

use rollout_machine::says_note;
use rollout_model::{CancelWord, DeploymentWord, Details, FeedbackNumber, NoteWord, Said};
use sql_calls::Fault;
use std::alloc::{AllocError, Global};

/// What the row of an entry tells, and the number that the entry bears.
#[derive(Drop)]
pub struct NewEntry {
    pub kind: u32,
    pub word: u32,
    pub is_note: bool,
    /// Each line ended by a line feed.
    pub details: String,
    pub number: Option<FeedbackNumber>,
}

fn note_code(word: NoteWord) -> u32
    ensures { result ≡ note_code word }
{
    match word {
        NoteWord::Proceeding => 0,
        NoteWord::Scheduled => 1,
        NoteWord::Resumed => 2,
    }
}

fn deployment_code(word: DeploymentWord) -> u32
    ensures { result ≡ deployment_code word }
{
    match word {
        DeploymentWord::Succeeded => 3,
        DeploymentWord::Failed => 4,
        DeploymentWord::Rejected => 5,
        DeploymentWord::Noted(note) => note_code(note),
    }
}

fn cancel_code(word: CancelWord) -> u32
    ensures { result ≡ cancel_code word }
{
    match word {
        CancelWord::Closed => 3,
        CancelWord::Canceled => 4,
        CancelWord::Rejected => 5,
        CancelWord::Noted(note) => note_code(note),
    }
}

fn kind_code(said: Said) -> u32
    ensures { result ≡ kind_code said }
{
    match said {
        Said::Deployment(_) => 0,
        Said::Cancel(_) => 1,
    }
}

fn word_code(said: Said) -> u32
    ensures { result ≡ word_code said }
{
    match said {
        Said::Deployment(word) => deployment_code(word),
        Said::Cancel(word) => cancel_code(word),
    }
}

/// The lines as one text, each ended by a line feed.
fn join_lines(alloc: Global, details: &Details) -> Result<String, AllocError>
    ensures { IfOk result (λ text. string_bytes text ≡ lines_of details.now) }
{
    let mut text = String::new(alloc);
    for line in details.as_slice() {
        text.push_str(line.as_str())?;
        text.push_str("\n")?;
    }
    Ok(text)
}

/// What the row of this feedback tells, and the number that it bears.
pub fn tell_entry(
    alloc: Global,
    said: Said,
    details: &Details,
    number: Option<FeedbackNumber>,
) -> Result<NewEntry, Fault>
    ensures ok { IfOk result (TellsEntry (record { entry = record { said = said; details = details.now }; number = number })) }
    ensures err { IfErr result (λ fault. fault ≡ Fault.Memory) }
{
    let Ok(details) = join_lines(alloc, details) else {
        return Err(Fault::Memory);
    };
    Ok(NewEntry {
        kind: kind_code(said),
        word: word_code(said),
        is_note: says_note(said),
        details,
        number,
    })
}
