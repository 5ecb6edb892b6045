//! The bytes of replies.

ghost use Rattle.std.specs.Prelude.{◌≡◌, IfOk};
ghost use Rattle.http_wire.specs.Inbox.{message_of};
ghost use Rattle.http_wire.specs.Replies.{answer_text};
ghost use Rattle.rollout_machine.specs.Views.{reply_of};
ghost use Rattle.stream_server.specs.Interfaces.{is_for_devices};
ghost use Rattle.stream_server.specs.Parts.{IsToldWhole};

use ddi_api::device_reply;
use http_wire::{Answer, Message, reply_bytes};
use mgmt_api::manage_reply_to;
use rollout_model::{Refusal, Reply};
use std::alloc::Global;

/// Whether devices alone are shown such a reply.
fn is_for_devices(reply: &Reply) -> bool
    ensures { result ≡ is_for_devices (reply_of reply.now) }
{
    match reply {
        Reply::Poll(_, _) => true,
        Reply::Deployment(_) => true,
        Reply::Cancel(_) => true,
        _ => false,
    }
}

/// The answer to a message, by the interface that has such replies.
fn answer_to(alloc: Global, message: &Message<'_>, reply: &Reply) -> Result<Answer, Refusal>
    ensures { IfOk result (λ answer. IsToldWhole (message_of message.now) (reply_of reply.now) (answer_text answer)) }
{
    if is_for_devices(reply) {
        device_reply(alloc, reply)
    } else {
        manage_reply_to(alloc, message, reply)
    }
}

/// The bytes of the reply to a message, where it is no refusal.
pub(crate) fn success_text(
    alloc: Global,
    message: &Message<'_>,
    reply: &Reply,
) -> Result<Vec<u8>, Refusal>
    ensures { IfOk result (λ bytes. IsToldWhole (message_of message.now) (reply_of reply.now) bytes.items) }
{
    let answer = answer_to(alloc, message, reply)?;
    reply_bytes(alloc, &answer)
}
