//! From a reply to its status, its content type and its body.

ghost use Rattle.std.specs.Prelude.{◌≡◌, [], false, IfOk, IfErr};
ghost use Rattle.rollout_model.specs.declared.refusal.Refusal.TheVariants.{NoMemory};
ghost use Rattle.rollout_machine.specs.Replies.{Done, Refused};
ghost use Rattle.rollout_machine.specs.Views.{reply_of};
ghost use Rattle.http_wire.specs.Replies.{answer_text};
ghost use Rattle.mgmt_api.specs.Replies.{Has, file_reply, json_reply};
ghost use Rattle.ddi_api.specs.Replies.{parts_of};
ghost use Rattle.mgmt_api.specs.Replies.{text_of};

use crate::object::{cancel_text, deployment_text, poll_text};
use http::StatusCode;
use http_wire::{Answer, ContentType};
use mgmt_api::manage_reply;
use rollout_model::{Contents, Refusal, Reply};
use std::alloc::{AllocError, Global};

fn json_answer(body: Vec<u8>) -> Answer
    ensures { Has (json_reply 200 body.items) result }
{
    Answer {
        status: StatusCode::OK,
        content_type: ContentType::Json,
        body,
    }
}

/// The answer to what no request of this interface is answered by.
fn empty_answer(alloc: Global) -> Answer
    ensures { Has (json_reply 200 []) result }
{
    json_answer(Vec::new(alloc))
}

fn octets_answer(alloc: Global, contents: &Contents) -> Result<Answer, AllocError>
    ensures { IfOk result (Has (file_reply ContentType.Octets contents.now)) }
{
    let body = Vec::from_slice(alloc, contents.as_slice())?;
    Ok(Answer {
        status: StatusCode::OK,
        content_type: ContentType::Octets,
        body,
    })
}

/// A refusal is told as the management interface tells it.
fn refused_answer(alloc: Global, refusal: Refusal) -> Result<Answer, Refusal>
    ensures parts { IfOk result (Has (parts_of (Refused refusal))) }
    ensures memory { IfErr result (λ e. e ≡ NoMemory) }
{
    manage_reply(alloc, &Reply::Refused(refusal))
}

fn done_answer(alloc: Global) -> Result<Answer, Refusal>
    ensures parts { IfOk result (Has (parts_of Done)) }
    ensures memory { IfErr result (λ e. e ≡ NoMemory) }
{
    manage_reply(alloc, &Reply::Done)
}

fn answer_of(alloc: Global, reply: &Reply) -> Result<Answer, Refusal>
    ensures parts { IfOk result (Has (parts_of (reply_of reply.now))) }
    ensures memory { IfErr result (λ e. e ≡ NoMemory) }
{
    match reply {
        Reply::Refused(refusal) => refused_answer(alloc, *refusal),
        Reply::Done => done_answer(alloc),
        Reply::Contents(contents) => Ok(octets_answer(alloc, contents)?),
        Reply::Poll(id, offer) => Ok(json_answer(poll_text(alloc, id, *offer)?)),
        Reply::Deployment(plan) => Ok(json_answer(deployment_text(alloc, plan)?)),
        Reply::Cancel(action) => Ok(json_answer(cancel_text(alloc, *action)?)),
        _ => Ok(empty_answer(alloc)),
    }
}

/// Status, content type and body of a reply to a device. Refused for want of memory alone.
pub fn device_reply(alloc: Global, reply: &Reply) -> Result<Answer, Refusal>
    ensures parts { IfOk result (Has (parts_of (reply_of reply.now))) }
    ensures text { IfOk result (λ answer. (parts_of (reply_of reply.now)).ends ≡ false → answer_text answer ≡ text_of (parts_of (reply_of reply.now))) }
    ensures memory { IfErr result (λ e. e ≡ NoMemory) }
{
    answer_of(alloc, reply)
}
