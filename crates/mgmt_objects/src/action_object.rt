//! Actions in replies, and what devices said of them.

ghost use Rattle.std.specs.Prelude.{◌≡◌, Some, IfOk, refl};
ghost use Rattle.serde_json.specs.View.{view};
ghost use Rattle.mgmt_objects.specs.ActionObjects.{action_data, entry_data, entry_members, kind_text, note_text, said_texts, with_number_member};
ghost use Rattle.mgmt_objects.specs.Floats.{entry_has_no_float};
ghost use Rattle.rollout_model.specs.declared.feedback.Said.TheVariants as said;
ghost use Rattle.serde_json.specs.Data.{string};

use crate::shown::{Shown, values};
use rollout_model::{
    Action, CancelWord, DeploymentWord, Detail, FeedbackNumber, HistoryEntry, NoteWord,
    NumberedEntry, Said,
};
use serde_json::{Value, json};
use std::alloc::{AllocError, Global};

impl Shown for Action {
    ghost shows = { action_data };

    ghost has_no_float = { λ a. refl };

    fn value(&self, alloc: Global) -> Result<Value, AllocError> {
        json!(in alloc; {
            "group": self.group,
            "id": self.number.get(),
            "rollout": self.rollout.get(),
            "status": self.word.as_str(),
            "target": self.target.as_str(),
        })
    }
}

fn note_text(word: NoteWord) -> &'static str
    ensures { result.now ≡ note_text word }
{
    match word {
        NoteWord::Proceeding => "proceeding",
        NoteWord::Scheduled => "scheduled",
        NoteWord::Resumed => "resumed",
    }
}

fn deployment_execution(word: DeploymentWord) -> &'static str
    ensures { result.now ≡ (said_texts (said.Deployment word)).0 }
{
    match word {
        DeploymentWord::Succeeded => "closed",
        DeploymentWord::Failed => "closed",
        DeploymentWord::Rejected => "rejected",
        DeploymentWord::Noted(note) => note_text(note),
    }
}

fn deployment_finished(word: DeploymentWord) -> &'static str
    ensures { result.now ≡ (said_texts (said.Deployment word)).1 }
{
    match word {
        DeploymentWord::Succeeded => "success",
        DeploymentWord::Failed => "failure",
        DeploymentWord::Rejected => "none",
        DeploymentWord::Noted(_) => "none",
    }
}

fn cancel_execution(word: CancelWord) -> &'static str
    ensures { result.now ≡ (said_texts (said.Cancel word)).0 }
{
    match word {
        CancelWord::Closed => "closed",
        CancelWord::Canceled => "canceled",
        CancelWord::Rejected => "rejected",
        CancelWord::Noted(note) => note_text(note),
    }
}

fn cancel_finished(word: CancelWord) -> &'static str
    ensures { result.now ≡ (said_texts (said.Cancel word)).1 }
{
    match word {
        CancelWord::Closed => "success",
        CancelWord::Canceled => "success",
        CancelWord::Rejected => "none",
        CancelWord::Noted(_) => "none",
    }
}

/// A line that a device added to its feedback.
impl Shown for Detail {
    ghost shows = { string };

    ghost has_no_float = { λ detail. refl };

    fn value(&self, alloc: Global) -> Result<Value, AllocError> {
        Value::try_from_str(alloc, self.as_str())
    }
}

fn kind_text(said: Said) -> &'static str
    ensures { result.now ≡ kind_text said }
{
    match said {
        Said::Deployment(_) => "deployment",
        Said::Cancel(_) => "cancel",
    }
}

fn execution_text(said: Said) -> &'static str
    ensures { result.now ≡ (said_texts said).0 }
{
    match said {
        Said::Deployment(word) => deployment_execution(word),
        Said::Cancel(word) => cancel_execution(word),
    }
}

fn finished_text(said: Said) -> &'static str
    ensures { result.now ≡ (said_texts said).1 }
{
    match said {
        Said::Deployment(word) => deployment_finished(word),
        Said::Cancel(word) => cancel_finished(word),
    }
}

/// An entry of this number in the history of its action.
fn entry_members(alloc: Global, number: u32, entry: &HistoryEntry) -> Result<Value, AllocError>
    ensures { IfOk result (λ v. view v ≡ entry_members number entry.now) }
{
    let details = values(alloc, entry.details.as_slice())?;
    json!(in alloc; {
        "details": Value::Array(details),
        "execution": execution_text(entry.said),
        "finished": finished_text(entry.said),
        "id": number,
        "kind": kind_text(entry.said),
    })
}

/// An object, and the number that the device gave as one more member.
fn with_number(alloc: Global, object: Value, number: FeedbackNumber) -> Result<Value, AllocError>
    ensures { IfOk result (λ v. view v ≡ with_number_member (Some number) (view object)) }
{
    match object {
        Value::Object(mut members) => {
            let key = String::from_str(alloc, "number")?;
            members.insert(key, Value::from(number.get()))?;
            Ok(Value::Object(members))
        }
        other => Ok(other),
    }
}

impl Shown for NumberedEntry {
    ghost shows = { entry_data };

    ghost has_no_float = { entry_has_no_float };

    fn value(&self, alloc: Global) -> Result<Value, AllocError> {
        let entry = entry_members(alloc, self.number, &self.reported.entry)?;
        match self.reported.number {
            Some(number) => with_number(alloc, entry, number),
            None => Ok(entry),
        }
    }
}
