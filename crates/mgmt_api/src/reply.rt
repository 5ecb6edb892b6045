//! From a reply to its status, its content type and its body.

ghost use Rattle.std.specs.Prelude.{◌≡◌, [], bytes_eq, if◌then◌else◌, false, IfOk, IfErr, string_bytes};
ghost use Rattle.serde_json.specs.Written.{compact_text};
ghost use Rattle.rollout_model.specs.declared.refusal.Refusal.TheVariants.{NoMemory};
ghost use Rattle.rollout_machine.specs.Replies.{ActionsTableShown, Done, Refused, ReportShown};
ghost use Rattle.rollout_machine.specs.Views.{listed, listed_targets, reply_of, report};
ghost use Rattle.http_wire.specs.Inbox.{message_of};
ghost use Rattle.http_wire.specs.Replies.{answer_text};
ghost use Rattle.mgmt_objects.specs.Pages.{single};
ghost use Rattle.mgmt_api.specs.Replies.{GivesAnswer, Has, file_reply, parts_of, parts_to, text_of, json_reply};
ghost use Rattle.http_wire.specs.Targets.{path_of};
ghost use Rattle.mgmt_api.specs.Routes.{import_path};
ghost use Rattle.mgmt_api.specs.Replies.{page_reply, shown_target_data};
ghost use Rattle.mgmt_objects.specs.TargetObjects.{accepted_data};

use desk_files::{actions_csv, rollout_report};
use http::StatusCode;
use http_wire::{Answer, ContentType, Message, refusal_answer};
use mgmt_objects::{Shown, accepted_text, done_text, object_text, page_text, single_text};
use rollout_model::{Action, Contents, PageOf, Refusal, Reply, RolloutReport, ShownTarget};
use std::alloc::Global;

fn json_answer(status: StatusCode, body: String) -> Answer
    ensures { Has (json_reply status (string_bytes body)) result }
{
    Answer {
        status,
        content_type: ContentType::Json,
        body: body.into_bytes(),
    }
}

fn file_answer(content_type: ContentType, body: Vec<u8>) -> Answer
    ensures { Has (file_reply content_type body.items) result }
{
    Answer {
        status: StatusCode::OK,
        content_type,
        body,
    }
}

fn object_answer<T: Shown>(alloc: Global, status: StatusCode, shown: &T) -> Result<Answer, Refusal>
    ensures { GivesAnswer (json_reply status (compact_text (T.shows shown.now))) result }
{
    let body = object_text(alloc, shown)?;
    Ok(json_answer(status, body))
}

/// An array of what was added.
fn single_answer<T: Shown>(alloc: Global, added: &T) -> Result<Answer, Refusal>
    ensures { GivesAnswer (json_reply 201 (compact_text (single (T.shows added.now)))) result }
{
    let body = single_text(alloc, added)?;
    Ok(json_answer(StatusCode::CREATED, body))
}

fn page_answer<T: Shown>(alloc: Global, page: &PageOf<T>) -> Result<Answer, Refusal>
    ensures { GivesAnswer (page_reply T.shows (listed page.now)) result }
{
    let body = page_text(alloc, page.content.as_slice(), page.total)?;
    Ok(json_answer(StatusCode::OK, body))
}

fn targets_answer(alloc: Global, page: &PageOf<ShownTarget>) -> Result<Answer, Refusal>
    ensures { GivesAnswer (page_reply shown_target_data (listed_targets page.now)) result }
{
    page_answer(alloc, page)
}

fn octets_answer(alloc: Global, contents: &Contents) -> Result<Answer, Refusal>
    ensures { GivesAnswer (file_reply ContentType.Octets contents.now) result }
{
    let body = Vec::from_slice(alloc, contents.as_slice())?;
    Ok(file_answer(ContentType::Octets, body))
}

fn report_answer(alloc: Global, shown: &RolloutReport) -> Result<Answer, Refusal>
    ensures { GivesAnswer (parts_of (ReportShown (report shown.now))) result }
{
    let text = rollout_report(alloc, shown)?;
    Ok(file_answer(ContentType::Text, text.into_bytes()))
}

fn table_answer(alloc: Global, actions: &[Action]) -> Result<Answer, Refusal>
    ensures { GivesAnswer (parts_of (ActionsTableShown actions.now)) result }
{
    let text = actions_csv(alloc, actions)?;
    Ok(file_answer(ContentType::Csv, text.into_bytes()))
}

fn refused_answer(alloc: Global, refusal: Refusal) -> Result<Answer, Refusal>
    ensures { GivesAnswer (parts_of (Refused refusal)) result }
{
    let answer = refusal_answer(alloc, refusal)?;
    Ok(answer)
}

fn done_answer(alloc: Global) -> Result<Answer, Refusal>
    ensures { GivesAnswer (parts_of Done) result }
{
    let body = done_text(alloc)?;
    Ok(json_answer(StatusCode::OK, body))
}

/// What devices alone are shown has no body here.
fn empty_answer(alloc: Global) -> Answer
    ensures { Has (json_reply 200 []) result }
{
    json_answer(StatusCode::OK, String::new(alloc))
}

fn put_answer(alloc: Global, status: StatusCode, accepted: u32) -> Result<Answer, Refusal>
    ensures { GivesAnswer (json_reply status (compact_text (accepted_data accepted))) result }
{
    let body = accepted_text(alloc, accepted)?;
    Ok(json_answer(status, body))
}

fn answer_of(alloc: Global, reply: &Reply) -> Result<Answer, Refusal>
    ensures { GivesAnswer (parts_of (reply_of reply.now)) result }
{
    match reply {
        Reply::Done => done_answer(alloc),
        Reply::ModuleAdded(module) => single_answer(alloc, module),
        Reply::Module(module) => object_answer(alloc, StatusCode::OK, module),
        Reply::Modules(page) => page_answer(alloc, page),
        Reply::ArtifactAdded(artifact) => object_answer(alloc, StatusCode::CREATED, artifact),
        Reply::Artifact(artifact) => object_answer(alloc, StatusCode::OK, artifact),
        Reply::Artifacts(page) => page_answer(alloc, page),
        Reply::Contents(contents) => octets_answer(alloc, contents),
        Reply::SetAdded(set) => single_answer(alloc, set),
        Reply::Set(set) => object_answer(alloc, StatusCode::OK, set),
        Reply::Sets(page) => page_answer(alloc, page),
        Reply::TargetsPut(accepted) => put_answer(alloc, StatusCode::CREATED, *accepted),
        Reply::Target(target) => object_answer(alloc, StatusCode::OK, target),
        Reply::Targets(page) => targets_answer(alloc, page),
        Reply::RolloutAdded(rollout) => object_answer(alloc, StatusCode::CREATED, rollout),
        Reply::Rollout(rollout) => object_answer(alloc, StatusCode::OK, rollout),
        Reply::Rollouts(page) => page_answer(alloc, page),
        Reply::Group(group) => object_answer(alloc, StatusCode::OK, group),
        Reply::Groups(page) => page_answer(alloc, page),
        Reply::Action(action) => object_answer(alloc, StatusCode::OK, action),
        Reply::Actions(page) => page_answer(alloc, page),
        Reply::History(page) => page_answer(alloc, page),
        Reply::Report(report) => report_answer(alloc, report),
        Reply::ActionsTable(actions) => table_answer(alloc, actions.as_slice()),
        Reply::Poll(_, _) => Ok(empty_answer(alloc)),
        Reply::Deployment(_) => Ok(empty_answer(alloc)),
        Reply::Cancel(_) => Ok(empty_answer(alloc)),
        Reply::Refused(refusal) => refused_answer(alloc, *refusal),
    }
}

/// Status, content type and body of a reply, whatever was asked; targets are put by 201. Refused for want of memory alone.
pub fn manage_reply(alloc: Global, reply: &Reply) -> Result<Answer, Refusal>
    ensures parts { IfOk result (Has (parts_of (reply_of reply.now))) }
    ensures memory { IfErr result (λ e. e ≡ NoMemory) }
{
    answer_of(alloc, reply)
}

/// Whether a message hands in a file of targets.
fn is_import(message: &Message<'_>) -> bool
    ensures { result ≡ bytes_eq (path_of (message_of message.now).target) import_path }
{
    message.path() == b"/desk/v1/import".as_slice()
}

fn put_status(message: &Message<'_>) -> StatusCode
    ensures { result ≡ (if bytes_eq (path_of (message_of message.now).target) import_path then 200 else 201) }
{
    if is_import(message) {
        StatusCode::OK
    } else {
        StatusCode::CREATED
    }
}

fn answer_to(alloc: Global, message: &Message<'_>, reply: &Reply) -> Result<Answer, Refusal>
    ensures { GivesAnswer (parts_to (message_of message.now) (reply_of reply.now)) result }
{
    match reply {
        Reply::TargetsPut(accepted) => put_answer(alloc, put_status(message), *accepted),
        _ => answer_of(alloc, reply),
    }
}

/// Status, content type and body of the reply to a message: targets that came as a file are put by 200. Refused for want of memory alone.
pub fn manage_reply_to(
    alloc: Global,
    message: &Message<'_>,
    reply: &Reply,
) -> Result<Answer, Refusal>
    ensures parts { IfOk result (Has (parts_to (message_of message.now) (reply_of reply.now))) }
    ensures text { IfOk result (λ answer. (parts_to (message_of message.now) (reply_of reply.now)).ends ≡ false
        → answer_text answer ≡ text_of (parts_to (message_of message.now) (reply_of reply.now))) }
    ensures memory { IfErr result (λ e. e ≡ NoMemory) }
{
    answer_to(alloc, message, reply)
}
