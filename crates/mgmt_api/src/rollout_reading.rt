//! What is asked of rollouts, their groups and their actions.

ghost use Rattle.http_wire.specs.Inbox.{message_of};
ghost use Rattle.mgmt_api.specs.Reading.{ReadsRequest, asked_by};
ghost use Rattle.mgmt_api.specs.declared.call.ManageCall.TheVariants.{TurnRollout};

use crate::call::ManageCall;
use crate::cancel_query::read_force;
use crate::page_query::read_page;
use crate::path::{read_group, read_item, read_target_id, take_no_query};
use crate::turn::RolloutTurn;
use http_wire::Message;
use mgmt_objects::read_rollout_body;
use rollout_model::{Cancel, Command, Query, Refusal, Request};
use std::alloc::Global;

pub(crate) fn read_show_target_actions(
    alloc: Global,
    message: &Message<'_>,
) -> Result<Request, Refusal>
    ensures { ReadsRequest (asked_by ManageCall.ShowTargetActions (message_of message.now)) result }
{
    let Some(id) = read_target_id(message) else {
        return Err(Refusal::NotFound);
    };
    let page = read_page(alloc, message.query())?;
    Ok(Request::Ask(Query::Actions(id, page)))
}

pub(crate) fn read_show_action(alloc: Global, message: &Message<'_>) -> Result<Request, Refusal>
    ensures { ReadsRequest (asked_by ManageCall.ShowAction (message_of message.now)) result }
{
    let Some(id) = read_target_id(message) else {
        return Err(Refusal::NotFound);
    };
    let Some(action) = read_item(message, 6) else {
        return Err(Refusal::NotFound);
    };
    take_no_query(alloc, message)?;
    Ok(Request::Ask(Query::Action(id, action)))
}

pub(crate) fn read_cancel_action(alloc: Global, message: &Message<'_>) -> Result<Request, Refusal>
    ensures { ReadsRequest (asked_by ManageCall.CancelAction (message_of message.now)) result }
{
    let Some(target) = read_target_id(message) else {
        return Err(Refusal::NotFound);
    };
    let Some(action) = read_item(message, 6) else {
        return Err(Refusal::NotFound);
    };
    let force = read_force(alloc, message.query())?;
    Ok(Request::Do(Command::Cancel(Cancel {
        target,
        action,
        force,
    })))
}

pub(crate) fn read_show_history(alloc: Global, message: &Message<'_>) -> Result<Request, Refusal>
    ensures { ReadsRequest (asked_by ManageCall.ShowHistory (message_of message.now)) result }
{
    let Some(id) = read_target_id(message) else {
        return Err(Refusal::NotFound);
    };
    let Some(action) = read_item(message, 6) else {
        return Err(Refusal::NotFound);
    };
    let page = read_page(alloc, message.query())?;
    Ok(Request::Ask(Query::History(id, action, page)))
}

pub(crate) fn read_show_rollouts(alloc: Global, message: &Message<'_>) -> Result<Request, Refusal>
    ensures { ReadsRequest (asked_by ManageCall.ShowRollouts (message_of message.now)) result }
{
    let page = read_page(alloc, message.query())?;
    Ok(Request::Ask(Query::Rollouts(page)))
}

pub(crate) fn read_create_rollout(alloc: Global, message: &Message<'_>) -> Result<Request, Refusal>
    ensures { ReadsRequest (asked_by ManageCall.CreateRollout (message_of message.now)) result }
{
    take_no_query(alloc, message)?;
    let plan = read_rollout_body(alloc, message.body)?;
    Ok(Request::Do(Command::CreateRollout(plan)))
}

pub(crate) fn read_show_rollout(alloc: Global, message: &Message<'_>) -> Result<Request, Refusal>
    ensures { ReadsRequest (asked_by ManageCall.ShowRollout (message_of message.now)) result }
{
    let Some(number) = read_item(message, 4) else {
        return Err(Refusal::NotFound);
    };
    take_no_query(alloc, message)?;
    Ok(Request::Ask(Query::Rollout(number)))
}

pub(crate) fn read_turn_rollout(
    alloc: Global,
    turn: RolloutTurn,
    message: &Message<'_>,
) -> Result<Request, Refusal>
    ensures { ReadsRequest (asked_by (TurnRollout turn) (message_of message.now)) result }
{
    let Some(number) = read_item(message, 4) else {
        return Err(Refusal::NotFound);
    };
    take_no_query(alloc, message)?;
    Ok(Request::Do(turn.command(number)))
}

pub(crate) fn read_show_groups(alloc: Global, message: &Message<'_>) -> Result<Request, Refusal>
    ensures { ReadsRequest (asked_by ManageCall.ShowGroups (message_of message.now)) result }
{
    let Some(number) = read_item(message, 4) else {
        return Err(Refusal::NotFound);
    };
    let page = read_page(alloc, message.query())?;
    Ok(Request::Ask(Query::Groups(number, page)))
}

pub(crate) fn read_show_group(alloc: Global, message: &Message<'_>) -> Result<Request, Refusal>
    ensures { ReadsRequest (asked_by ManageCall.ShowGroup (message_of message.now)) result }
{
    let Some(number) = read_item(message, 4) else {
        return Err(Refusal::NotFound);
    };
    let Some(group) = read_group(message) else {
        return Err(Refusal::NotFound);
    };
    take_no_query(alloc, message)?;
    Ok(Request::Ask(Query::Group(number, group)))
}

pub(crate) fn read_show_group_targets(
    alloc: Global,
    message: &Message<'_>,
) -> Result<Request, Refusal>
    ensures { ReadsRequest (asked_by ManageCall.ShowGroupTargets (message_of message.now)) result }
{
    let Some(number) = read_item(message, 4) else {
        return Err(Refusal::NotFound);
    };
    let Some(group) = read_group(message) else {
        return Err(Refusal::NotFound);
    };
    let page = read_page(alloc, message.query())?;
    Ok(Request::Ask(Query::GroupTargets(number, group, page)))
}

pub(crate) fn read_show_report(alloc: Global, message: &Message<'_>) -> Result<Request, Refusal>
    ensures { ReadsRequest (asked_by ManageCall.ShowReport (message_of message.now)) result }
{
    let Some(number) = read_item(message, 4) else {
        return Err(Refusal::NotFound);
    };
    take_no_query(alloc, message)?;
    Ok(Request::Ask(Query::Report(number)))
}

pub(crate) fn read_show_actions_table(
    alloc: Global,
    message: &Message<'_>,
) -> Result<Request, Refusal>
    ensures { ReadsRequest (asked_by ManageCall.ShowActionsTable (message_of message.now)) result }
{
    let Some(number) = read_item(message, 4) else {
        return Err(Refusal::NotFound);
    };
    take_no_query(alloc, message)?;
    Ok(Request::Ask(Query::ActionsTable(number)))
}
