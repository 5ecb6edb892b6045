//! From a message to the request that it asks.

ghost use Rattle.std.specs.Prelude.{◌≡◌, ◌≢◌, ◌⊎◌, IfOk, IfErr, bytes_eq, option_and_then, slice_get};
ghost use Rattle.ddi_api.specs.Routes.{method_of};
ghost use Rattle.rollout_model.specs.declared.refusal.Refusal.TheVariants.{NoMemory, StoreFailed, Stopped, Unauthorized};
ghost use Rattle.rollout_machine.specs.Requests.{Asks, Rejected};
ghost use Rattle.rollout_machine.specs.Views.{request_of};
ghost use Rattle.http_wire.specs.Inbox.{message_of};
ghost use Rattle.mgmt_api.specs.Reading.{TakesNoQuery, item_in, or_rejected};
ghost use Rattle.ddi_api.specs.Credentials.{credential_of};
ghost use Rattle.ddi_api.specs.Reading.{ReadsRequest, asked_by_device, device_reading};
ghost use Rattle.http_wire.specs.Targets.{path_of};
ghost use Rattle.request_target.specs.Routes.{segments};
ghost use Rattle.rollout_model.specs.Rules.{is_filename, kept_if};

use crate::call::{DeviceCall, method_of};
use crate::config_body::read_config_body;
use crate::credential::read_credential;
use crate::feedback_body::read_feedback;
use crate::routes::DeviceRoutes;
use crate::spelled::read_filename;
use http_wire::Message;
use request_target::{number_at, segment_at, takes_query};
use rollout_model::{
    ActionNo, CancelWord, Command, Credential, DeploymentWord, Filename, ModuleNo, Query, Refusal,
    Request,
};
use std::alloc::Global;

/// A call is refused where there is a query: none of them takes one.
fn take_no_query(alloc: Global, message: &Message<'_>) -> Result<(), Refusal>
    ensures { TakesNoQuery (message_of message.now) result }
{
    if takes_query(alloc, &[], message.query())? {
        Ok(())
    } else {
        Err(Refusal::BadRequest)
    }
}

/// The action whose number stands in the seventh segment.
fn read_action_number(message: &Message<'_>) -> Option<ActionNo>
    ensures { result ≡ item_in (message_of message.now) 6 }
{
    let number = number_at(message.path(), 6)?;
    ActionNo::new(number)
}

/// The module whose number stands in the seventh segment.
fn read_module_number(message: &Message<'_>) -> Option<ModuleNo>
    ensures { result ≡ item_in (message_of message.now) 6 }
{
    let number = number_at(message.path(), 6)?;
    ModuleNo::new(number)
}

/// The filename that the ninth segment is.
fn read_filename_in(message: &Message<'_>) -> Option<Filename>
    ensures { result ≡ option_and_then (kept_if is_filename) (slice_get (segments (path_of (message_of message.now).target)) 8) }
{
    let segment = segment_at(message.path(), 8)?;
    read_filename(segment)
}

fn read_poll(alloc: Global, device: Credential, message: &Message<'_>) -> Result<Request, Refusal>
    ensures { ReadsRequest (asked_by_device DeviceCall.Poll device (message_of message.now)) result }
{
    take_no_query(alloc, message)?;
    Ok(Request::Ask(Query::Poll(device)))
}

fn read_show_deployment(
    alloc: Global,
    device: Credential,
    message: &Message<'_>,
) -> Result<Request, Refusal>
    ensures { ReadsRequest (asked_by_device DeviceCall.ShowDeployment device (message_of message.now)) result }
{
    let Some(action) = read_action_number(message) else {
        return Err(Refusal::NotFound);
    };
    take_no_query(alloc, message)?;
    Ok(Request::Ask(Query::Deployment(device, action)))
}

fn read_show_cancel(
    alloc: Global,
    device: Credential,
    message: &Message<'_>,
) -> Result<Request, Refusal>
    ensures { ReadsRequest (asked_by_device DeviceCall.ShowCancel device (message_of message.now)) result }
{
    let Some(action) = read_action_number(message) else {
        return Err(Refusal::NotFound);
    };
    take_no_query(alloc, message)?;
    Ok(Request::Ask(Query::CancelOf(device, action)))
}

fn read_download(
    alloc: Global,
    device: Credential,
    message: &Message<'_>,
) -> Result<Request, Refusal>
    ensures { ReadsRequest (asked_by_device DeviceCall.Download device (message_of message.now)) result }
{
    let Some(module_number) = read_module_number(message) else {
        return Err(Refusal::NotFound);
    };
    let Some(filename) = read_filename_in(message) else {
        return Err(Refusal::NotFound);
    };
    take_no_query(alloc, message)?;
    Ok(Request::Ask(Query::Download(device, module_number, filename)))
}

fn read_deployment_feedback(
    alloc: Global,
    device: Credential,
    message: &Message<'_>,
) -> Result<Request, Refusal>
    ensures { ReadsRequest (asked_by_device DeviceCall.Feedback device (message_of message.now)) result }
{
    let Some(action) = read_action_number(message) else {
        return Err(Refusal::NotFound);
    };
    take_no_query(alloc, message)?;
    let feedback = read_feedback::<DeploymentWord>(alloc, device, action, message.body)?;
    Ok(Request::Do(Command::Feedback(feedback)))
}

fn read_cancel_feedback(
    alloc: Global,
    device: Credential,
    message: &Message<'_>,
) -> Result<Request, Refusal>
    ensures { ReadsRequest (asked_by_device DeviceCall.CancelFeedback device (message_of message.now)) result }
{
    let Some(action) = read_action_number(message) else {
        return Err(Refusal::NotFound);
    };
    take_no_query(alloc, message)?;
    let feedback = read_feedback::<CancelWord>(alloc, device, action, message.body)?;
    Ok(Request::Do(Command::CancelFeedback(feedback)))
}

fn read_put_attributes(
    alloc: Global,
    device: Credential,
    message: &Message<'_>,
) -> Result<Request, Refusal>
    ensures { ReadsRequest (asked_by_device DeviceCall.PutAttributes device (message_of message.now)) result }
{
    take_no_query(alloc, message)?;
    let given = read_config_body(alloc, message.body)?;
    Ok(Request::Do(Command::PutAttributes(device, given)))
}

fn read_call(
    alloc: Global,
    call: DeviceCall,
    device: Credential,
    message: &Message<'_>,
) -> Result<Request, Refusal>
    ensures { ReadsRequest (asked_by_device call device (message_of message.now)) result }
{
    match call {
        DeviceCall::Poll => read_poll(alloc, device, message),
        DeviceCall::ShowDeployment => read_show_deployment(alloc, device, message),
        DeviceCall::Feedback => read_deployment_feedback(alloc, device, message),
        DeviceCall::ShowCancel => read_show_cancel(alloc, device, message),
        DeviceCall::CancelFeedback => read_cancel_feedback(alloc, device, message),
        DeviceCall::PutAttributes => read_put_attributes(alloc, device, message),
        DeviceCall::Download => read_download(alloc, device, message),
    }
}

/// Who the device says it is, and then what it asks.
fn read_by_one(alloc: Global, call: DeviceCall, message: &Message<'_>) -> Result<Request, Refusal>
    ensures { ReadsRequest (or_rejected Unauthorized (λ device. asked_by_device call device (message_of message.now))
        (credential_of (message_of message.now))) result }
{
    let Some(device) = read_credential(message) else {
        return Err(Refusal::Unauthorized);
    };
    read_call(alloc, call, device, message)
}

fn has_method(call: DeviceCall, message: &Message<'_>) -> bool
    ensures { result ≡ bytes_eq (message_of message.now).method (method_of call) }
{
    message.method == method_of(call)
}

fn read_routed(routes: &DeviceRoutes, message: &Message<'_>) -> Result<Request, Refusal>
    ensures { ReadsRequest (device_reading (message_of message.now)) result }
{
    let Some(call) = routes.find(message.path()) else {
        return Err(Refusal::NotFound);
    };
    if has_method(call, message) {
        read_by_one(routes.alloc(), call, message)
    } else {
        Err(Refusal::BadMethod)
    }
}

/// The request that a device's message asks.
pub fn read_device(routes: &DeviceRoutes, message: &Message<'_>) -> Result<Request, Refusal>
    ensures ok { IfOk result (λ r. device_reading (message_of message.now) ≡ Asks (request_of r)) }
    ensures err { IfErr result (λ e. (e ≡ NoMemory) ⊎ (device_reading (message_of message.now) ≡ Rejected e)) }

    // What the desk alone answers is never a reader's refusal.
    ensures no_store { IfErr result (λ e. e ≢ StoreFailed) }
    ensures no_stop { IfErr result (λ e. e ≢ Stopped) }
{
    read_routed(routes, message)
}
