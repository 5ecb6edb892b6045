//! From a message to the request that it asks.

ghost use Rattle.std.specs.Prelude.{◌≡◌, ◌≢◌, ◌⊎◌, IfOk, IfErr};
ghost use Rattle.desk_files.specs.Imports.{targets_in_file};
ghost use Rattle.rollout_model.specs.declared.refusal.Refusal.TheVariants.{NoMemory, StoreFailed, Stopped};
ghost use Rattle.rollout_machine.specs.Requests.{Asks, Rejected};
ghost use Rattle.rollout_machine.specs.Views.{request_of};
ghost use Rattle.http_wire.specs.Inbox.{message_of};
ghost use Rattle.mgmt_api.specs.Reading.{ReadsRequest, asked_by, import_asked, manage_reading};

use crate::call::{ManageCall, call_of};
use crate::page_query::read_page;
use crate::path::{read_item, read_tag, read_target_id, take_no_query};
use crate::rollout_reading::{
    read_cancel_action, read_create_rollout, read_show_action, read_show_actions_table,
    read_show_group, read_show_group_targets, read_show_groups, read_show_history,
    read_show_report, read_show_rollout, read_show_rollouts, read_show_target_actions,
    read_turn_rollout,
};
use crate::routes::ManageRoutes;
use crate::target_query::read_selection;
use crate::upload_query::read_upload;
use desk_files::read_targets;
use http_wire::Message;
use mgmt_objects::{read_module_body, read_set_body, read_targets_body};
use rollout_model::{Command, Query, Refusal, Request};
use std::alloc::Global;

fn read_show_modules(alloc: Global, message: &Message<'_>) -> Result<Request, Refusal>
    ensures { ReadsRequest (asked_by ManageCall.ShowModules (message_of message.now)) result }
{
    let page = read_page(alloc, message.query())?;
    Ok(Request::Ask(Query::Modules(page)))
}

fn read_add_module(alloc: Global, message: &Message<'_>) -> Result<Request, Refusal>
    ensures { ReadsRequest (asked_by ManageCall.AddModule (message_of message.now)) result }
{
    take_no_query(alloc, message)?;
    let label = read_module_body(alloc, message.body)?;
    Ok(Request::Do(Command::AddModule(label)))
}

fn read_show_module(alloc: Global, message: &Message<'_>) -> Result<Request, Refusal>
    ensures { ReadsRequest (asked_by ManageCall.ShowModule (message_of message.now)) result }
{
    let Some(number) = read_item(message, 4) else {
        return Err(Refusal::NotFound);
    };
    take_no_query(alloc, message)?;
    Ok(Request::Ask(Query::Module(number)))
}

fn read_show_artifacts(alloc: Global, message: &Message<'_>) -> Result<Request, Refusal>
    ensures { ReadsRequest (asked_by ManageCall.ShowArtifacts (message_of message.now)) result }
{
    let Some(number) = read_item(message, 4) else {
        return Err(Refusal::NotFound);
    };
    let page = read_page(alloc, message.query())?;
    Ok(Request::Ask(Query::Artifacts(number, page)))
}

fn read_add_artifact(alloc: Global, message: &Message<'_>) -> Result<Request, Refusal>
    ensures { ReadsRequest (asked_by ManageCall.AddArtifact (message_of message.now)) result }
{
    let Some(number) = read_item(message, 4) else {
        return Err(Refusal::NotFound);
    };
    let upload = read_upload(alloc, number, message.query(), message.body)?;
    Ok(Request::Do(Command::AddArtifact(upload)))
}

fn read_show_artifact(alloc: Global, message: &Message<'_>) -> Result<Request, Refusal>
    ensures { ReadsRequest (asked_by ManageCall.ShowArtifact (message_of message.now)) result }
{
    let Some(number) = read_item(message, 4) else {
        return Err(Refusal::NotFound);
    };
    let Some(artifact) = read_item(message, 6) else {
        return Err(Refusal::NotFound);
    };
    take_no_query(alloc, message)?;
    Ok(Request::Ask(Query::Artifact(number, artifact)))
}

fn read_show_contents(alloc: Global, message: &Message<'_>) -> Result<Request, Refusal>
    ensures { ReadsRequest (asked_by ManageCall.ShowContents (message_of message.now)) result }
{
    let Some(number) = read_item(message, 4) else {
        return Err(Refusal::NotFound);
    };
    let Some(artifact) = read_item(message, 6) else {
        return Err(Refusal::NotFound);
    };
    take_no_query(alloc, message)?;
    Ok(Request::Ask(Query::Contents(number, artifact)))
}

fn read_show_sets(alloc: Global, message: &Message<'_>) -> Result<Request, Refusal>
    ensures { ReadsRequest (asked_by ManageCall.ShowSets (message_of message.now)) result }
{
    let page = read_page(alloc, message.query())?;
    Ok(Request::Ask(Query::Sets(page)))
}

fn read_add_set(alloc: Global, message: &Message<'_>) -> Result<Request, Refusal>
    ensures { ReadsRequest (asked_by ManageCall.AddSet (message_of message.now)) result }
{
    take_no_query(alloc, message)?;
    let label = read_set_body(alloc, message.body)?;
    Ok(Request::Do(Command::AddSet(label)))
}

fn read_show_set(alloc: Global, message: &Message<'_>) -> Result<Request, Refusal>
    ensures { ReadsRequest (asked_by ManageCall.ShowSet (message_of message.now)) result }
{
    let Some(number) = read_item(message, 4) else {
        return Err(Refusal::NotFound);
    };
    take_no_query(alloc, message)?;
    Ok(Request::Ask(Query::Set(number)))
}

fn read_show_targets(alloc: Global, message: &Message<'_>) -> Result<Request, Refusal>
    ensures { ReadsRequest (asked_by ManageCall.ShowTargets (message_of message.now)) result }
{
    let selection = read_selection(alloc, message.query())?;
    Ok(Request::Ask(Query::Targets(selection.filter_text, selection.page)))
}

fn read_put_targets(alloc: Global, message: &Message<'_>) -> Result<Request, Refusal>
    ensures { ReadsRequest (asked_by ManageCall.PutTargets (message_of message.now)) result }
{
    take_no_query(alloc, message)?;
    let rows = read_targets_body(alloc, message.body)?;
    Ok(Request::Do(Command::PutTargets(rows)))
}

fn read_show_target(alloc: Global, message: &Message<'_>) -> Result<Request, Refusal>
    ensures { ReadsRequest (asked_by ManageCall.ShowTarget (message_of message.now)) result }
{
    let Some(id) = read_target_id(message) else {
        return Err(Refusal::NotFound);
    };
    take_no_query(alloc, message)?;
    Ok(Request::Ask(Query::Target(id)))
}

fn read_tag_target(alloc: Global, message: &Message<'_>) -> Result<Request, Refusal>
    ensures { ReadsRequest (asked_by ManageCall.Tag (message_of message.now)) result }
{
    let Some(id) = read_target_id(message) else {
        return Err(Refusal::NotFound);
    };
    let Some(tag) = read_tag(message) else {
        return Err(Refusal::NotFound);
    };
    take_no_query(alloc, message)?;
    Ok(Request::Do(Command::Tag(id, tag)))
}

fn read_untag_target(alloc: Global, message: &Message<'_>) -> Result<Request, Refusal>
    ensures { ReadsRequest (asked_by ManageCall.Untag (message_of message.now)) result }
{
    let Some(id) = read_target_id(message) else {
        return Err(Refusal::NotFound);
    };
    let Some(tag) = read_tag(message) else {
        return Err(Refusal::NotFound);
    };
    take_no_query(alloc, message)?;
    Ok(Request::Do(Command::Untag(id, tag)))
}

/// What a file of targets asks: that all of them are put. A faulty file is refused by its line, as [`read_targets`] finds it.
pub fn read_file(alloc: Global, file: &[u8]) -> Result<Request, Refusal>
    ensures { ReadsRequest (import_asked (targets_in_file file.now)) result }
{
    match read_targets(alloc, file) {
        Ok(rows) => Ok(Request::Do(Command::PutTargets(rows))),
        Err(fault) => Err(fault.refusal()),
    }
}

fn read_import(alloc: Global, message: &Message<'_>) -> Result<Request, Refusal>
    ensures { ReadsRequest (asked_by ManageCall.Import (message_of message.now)) result }
{
    take_no_query(alloc, message)?;
    read_file(alloc, message.body)
}

fn read_call(alloc: Global, call: ManageCall, message: &Message<'_>) -> Result<Request, Refusal>
    ensures { ReadsRequest (asked_by call (message_of message.now)) result }
{
    match call {
        ManageCall::ShowModules => read_show_modules(alloc, message),
        ManageCall::AddModule => read_add_module(alloc, message),
        ManageCall::ShowModule => read_show_module(alloc, message),
        ManageCall::ShowArtifacts => read_show_artifacts(alloc, message),
        ManageCall::AddArtifact => read_add_artifact(alloc, message),
        ManageCall::ShowArtifact => read_show_artifact(alloc, message),
        ManageCall::ShowContents => read_show_contents(alloc, message),
        ManageCall::ShowSets => read_show_sets(alloc, message),
        ManageCall::AddSet => read_add_set(alloc, message),
        ManageCall::ShowSet => read_show_set(alloc, message),
        ManageCall::ShowTargets => read_show_targets(alloc, message),
        ManageCall::PutTargets => read_put_targets(alloc, message),
        ManageCall::ShowTarget => read_show_target(alloc, message),
        ManageCall::Tag => read_tag_target(alloc, message),
        ManageCall::Untag => read_untag_target(alloc, message),
        ManageCall::ShowTargetActions => read_show_target_actions(alloc, message),
        ManageCall::ShowAction => read_show_action(alloc, message),
        ManageCall::CancelAction => read_cancel_action(alloc, message),
        ManageCall::ShowHistory => read_show_history(alloc, message),
        ManageCall::ShowRollouts => read_show_rollouts(alloc, message),
        ManageCall::CreateRollout => read_create_rollout(alloc, message),
        ManageCall::ShowRollout => read_show_rollout(alloc, message),
        ManageCall::TurnRollout(turn) => read_turn_rollout(alloc, turn, message),
        ManageCall::ShowGroups => read_show_groups(alloc, message),
        ManageCall::ShowGroup => read_show_group(alloc, message),
        ManageCall::ShowGroupTargets => read_show_group_targets(alloc, message),
        ManageCall::ShowReport => read_show_report(alloc, message),
        ManageCall::ShowActionsTable => read_show_actions_table(alloc, message),
        ManageCall::Import => read_import(alloc, message),
    }
}

fn read_routed(routes: &ManageRoutes, message: &Message<'_>) -> Result<Request, Refusal>
    ensures { ReadsRequest (manage_reading (message_of message.now)) result }
{
    let Some(route) = routes.find(message.path()) else {
        return Err(Refusal::NotFound);
    };
    let Some(call) = call_of(route, message.method) else {
        return Err(Refusal::BadMethod);
    };
    read_call(routes.alloc(), call, message)
}

/// The request that a message asks.
pub fn read_manage(routes: &ManageRoutes, message: &Message<'_>) -> Result<Request, Refusal>
    ensures ok { IfOk result (λ r. manage_reading (message_of message.now) ≡ Asks (request_of r)) }
    ensures err { IfErr result (λ e. (e ≡ NoMemory) ⊎ (manage_reading (message_of message.now) ≡ Rejected e)) }

    // What the desk alone answers is never a reader's refusal.
    ensures no_store { IfErr result (λ e. e ≢ StoreFailed) }
    ensures no_stop { IfErr result (λ e. e ≢ Stopped) }
{
    read_routed(routes, message)
}
