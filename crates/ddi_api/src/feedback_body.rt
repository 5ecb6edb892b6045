//! Feedback in a body.

ghost use Rattle.std.specs.Prelude.{◌≡◌, ℕ, List, [], Option, Some, codes, map, option_and_then, option_map};
ghost use Rattle.std.specs.Option.{option_map_or};
ghost use Rattle.serde_json.specs.Find.{get};
ghost use Rattle.serde_json.specs.View.{view};
ghost use Rattle.mgmt_objects.specs.Readings.{ReadsAs, ReadsBy, ReadsExactly};
ghost use Rattle.mgmt_objects.specs.Traverse.{array_of, traverse};
ghost use Rattle.mgmt_objects.specs.Bodies.{body_data, string_member, text_in, whole_of};
ghost use Rattle.rollout_model.specs.Rules.{are_details, is_detail, is_feedback_number, kept_if};
ghost use Rattle.ddi_api.specs.FeedbackBodies.{cancel_word, deployment_word, feedback_in, number_given, status_word};

use mgmt_objects::{read_value, read_whole};
use rollout_model::{
    ActionNo, CancelWord, Credential, DeploymentWord, Detail, Details, DeviceFeedback,
    FeedbackNumber, NoteWord, Refusal,
};
use serde_json::Value;
use std::alloc::Global;

/// A line of a feedback.
fn read_line(alloc: Global, value: &Value) -> Result<Detail, Refusal>
    ensures { ReadsAs (text_in is_detail (view value.now)) result }
{
    let Some(text) = value.as_str() else {
        return Err(Refusal::BadRequest);
    };
    match Detail::read(alloc, text) {
        Ok(Some(line)) => Ok(line),
        Ok(None) => Err(Refusal::BadRequest),
        Err(_) => Err(Refusal::NoMemory),
    }
}

fn read_all(alloc: Global, values: &[Value]) -> Result<Vec<Detail>, Refusal>
    ensures { ReadsBy (λ v. v.items) (traverse (text_in is_detail) (map view values.now)) result }
{
    let mut lines = Vec::new(alloc);
    for value in values {
        let line = match read_line(alloc, value) {
            Ok(line) => line,
            Err(e) => return Err(e),
        };
        lines.push(line)?;
    }
    Ok(lines)
}

fn read_list(alloc: Global, value: &Value) -> Result<Vec<Detail>, Refusal>
    ensures { ReadsBy (λ v. v.items) (array_of (text_in is_detail) (view value.now)) result }
{
    match value.as_array() {
        Some(values) => read_all(alloc, values),
        None => Err(Refusal::BadRequest),
    }
}

/// What a device says of a deployment by a pair.
fn deployment_word(execution: &str, finished: &str) -> Option<DeploymentWord>
    ensures { result ≡ deployment_word execution.now finished.now }
{
    if execution == "closed" && finished == "success" {
        Some(DeploymentWord::Succeeded)
    } else if execution == "closed" && finished == "failure" {
        Some(DeploymentWord::Failed)
    } else if execution == "proceeding" && finished == "none" {
        Some(DeploymentWord::Noted(NoteWord::Proceeding))
    } else if execution == "scheduled" && finished == "none" {
        Some(DeploymentWord::Noted(NoteWord::Scheduled))
    } else if execution == "resumed" && finished == "none" {
        Some(DeploymentWord::Noted(NoteWord::Resumed))
    } else if execution == "rejected" && finished == "none" {
        Some(DeploymentWord::Rejected)
    } else {
        None
    }
}

/// What a device says of a cancel by a pair.
fn cancel_word(execution: &str, finished: &str) -> Option<CancelWord>
    ensures { result ≡ cancel_word execution.now finished.now }
{
    if execution == "closed" && finished == "success" {
        Some(CancelWord::Closed)
    } else if execution == "canceled" && finished == "success" {
        Some(CancelWord::Canceled)
    } else if execution == "rejected" && finished == "none" {
        Some(CancelWord::Rejected)
    } else if execution == "proceeding" && finished == "none" {
        Some(CancelWord::Noted(NoteWord::Proceeding))
    } else if execution == "scheduled" && finished == "none" {
        Some(CancelWord::Noted(NoteWord::Scheduled))
    } else if execution == "resumed" && finished == "none" {
        Some(CancelWord::Noted(NoteWord::Resumed))
    } else {
        None
    }
}

/// What a pair of `execution` and `finished` says.
pub(crate) trait FeedbackWord: Copy {
    ghost words: { List ℕ → List ℕ → Option Self };

    /// The word of a pair, where it says one.
    fn of_pair(execution: &str, finished: &str) -> Option<Self>
        ensures { result ≡ words execution.now finished.now };
}

impl FeedbackWord for DeploymentWord {
    ghost words = { deployment_word };

    fn of_pair(execution: &str, finished: &str) -> Option<Self> {
        deployment_word(execution, finished)
    }
}

impl FeedbackWord for CancelWord {
    ghost words = { cancel_word };

    fn of_pair(execution: &str, finished: &str) -> Option<Self> {
        cancel_word(execution, finished)
    }
}

fn string_member<'a>(object: &'a Value, key: &str) -> Option<&'a str>
    ensures { option_map (λ s. s.now) result ≡ string_member key.now (view object.now) }
{
    object.get(key).and_then(Value::as_str)
}

fn finished_in(status: &Value) -> Option<&str>
    ensures { option_map (λ s. s.now) result ≡ option_and_then (string_member (codes "finished")) (get (codes "result") (view status.now)) }
{
    let result = status.get("result")?;
    string_member(result, "finished")
}

fn word_in<W: FeedbackWord>(status: &Value) -> Option<W>
    ensures { result ≡ status_word W.words (view status.now) }
{
    let execution = string_member(status, "execution")?;
    let finished = finished_in(status)?;
    W::of_pair(execution, finished)
}

/// The lines of `details`, and none where it is missing.
fn read_lines(alloc: Global, status: &Value) -> Result<Vec<Detail>, Refusal>
    ensures { ReadsBy (λ v. v.items) (option_map_or (array_of (text_in is_detail)) (get (codes "details") (view status.now)) (Some [])) result }
{
    match status.get("details") {
        Some(list) => read_list(alloc, list),
        None => Ok(Vec::new(alloc)),
    }
}

fn read_details(alloc: Global, status: &Value) -> Result<Details, Refusal>
    ensures { ReadsAs (option_and_then (kept_if are_details)
        (option_map_or (array_of (text_in is_detail)) (get (codes "details") (view status.now)) (Some []))) result }
{
    let lines = read_lines(alloc, status)?;
    match Details::from_lines(lines) {
        Some(details) => Ok(details),
        None => Err(Refusal::BadRequest),
    }
}

fn feedback_number_in(value: &Value) -> Option<FeedbackNumber>
    ensures { result ≡ option_and_then (kept_if is_feedback_number) (whole_of (view value.now)) }
{
    let number = read_whole(value)?;
    FeedbackNumber::new(number)
}

/// The number that the device gave, and none where it is missing.
fn read_number(body: &Value) -> Result<Option<FeedbackNumber>, Refusal>
    ensures { ReadsExactly (number_given (view body.now)) result }
{
    let Some(value) = body.get("number") else {
        return Ok(None);
    };
    match feedback_number_in(value) {
        Some(number) => Ok(Some(number)),
        None => Err(Refusal::BadRequest),
    }
}

fn read_members<W: FeedbackWord>(
    alloc: Global,
    credential: Credential,
    action: ActionNo,
    body: &Value,
) -> Result<DeviceFeedback<W>, Refusal>
    ensures { ReadsAs (feedback_in W.words credential action (view body.now)) result }
{
    let number = read_number(body)?;
    let Some(status) = body.get("status") else {
        return Err(Refusal::BadRequest);
    };
    let Some(word) = word_in::<W>(status) else {
        return Err(Refusal::BadRequest);
    };
    let details = read_details(alloc, status)?;
    Ok(DeviceFeedback {
        credential,
        action,
        word,
        details,
        number,
    })
}

/// What the body of feedback says: an object with `status`, and perhaps `number`. In `status` are `execution`, `result` with `finished`, and
/// perhaps `details`.
pub(crate) fn read_feedback<W: FeedbackWord>(
    alloc: Global,
    credential: Credential,
    action: ActionNo,
    bytes: &[u8],
) -> Result<DeviceFeedback<W>, Refusal>
    ensures { ReadsAs (option_and_then (feedback_in W.words credential action) (body_data bytes.now)) result }
{
    let value = read_value(alloc, bytes)?;
    read_members::<W>(alloc, credential, action, &value)
}
