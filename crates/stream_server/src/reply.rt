//! Writing replies.

ghost use Rattle.std.specs.Prelude.{◌≡◌, ◌≢◌, ◌++◌, ℕ, List, true, IfOk, IfErr, OnOk};
ghost use Rattle.std.specs.Io.KnownBytes.{Appends};
ghost use Rattle.rollout_machine.specs.Replies.{Refused};
ghost use Rattle.rollout_machine.specs.Views.{reply_of};
ghost use Rattle.http_wire.specs.Inbox.{message_of};
ghost use Rattle.http_wire.specs.Replies.{refusal_text};
ghost use Rattle.http_wire.specs.Watched.{inner_of, has_failed};
ghost use Rattle.stream_server.specs.Interfaces.{reply_text};
ghost use Rattle.stream_server.specs.Headline.{FailsBy};
ghost use Rattle.stream_server.specs.Parts.{SendsPart};

use crate::ServeFault;
use crate::bytes::success_text;
use http_wire::{Message, Watched, refusal_bytes, write_all_counted};
use rollout_model::{Refusal, Reply};
use std::alloc::Global;
use std::io::Write;

/// Writes all the bytes out and flushes. The fault is `Write`, and a beginning of the bytes was written then.
pub fn send<W: Write>(writer: &mut Watched<W>, bytes: &[u8]) -> Result<(), ServeFault>
    ensures ok { OnOk result (Appends (W.contents (inner_of writer.old)) (W.contents (inner_of writer.new)) bytes.now) }
    ensures unfailed { OnOk result ((has_failed writer.new) ≡ (has_failed writer.old)) }
    ensures err { IfErr result (λ fault. (fault ≡ ServeFault.Write) × ((has_failed writer.new) ≡ true)
        × (part : List ℕ) × (left : List ℕ) × (bytes.now ≡ part ++ left) × Appends (W.contents (inner_of writer.old)) (W.contents (inner_of writer.new)) part) }
{
    let Ok(()) = write_all_counted(writer, bytes) else {
        return Err(ServeFault::Write);
    };
    match writer.flush() {
        Ok(()) => Ok(()),
        Err(_) => Err(ServeFault::Write),
    }
}

/// Writes a refusal. It takes no memory.
pub(crate) fn write_refusal<W: Write>(
    writer: &mut Watched<W>,
    refusal: Refusal,
) -> Result<(), ServeFault>
    ensures ok { OnOk result (Appends (W.contents (inner_of writer.old)) (W.contents (inner_of writer.new)) (refusal_text refusal)) }
    ensures write_failed { FailsBy result ServeFault.Write (has_failed writer.old) (has_failed writer.new) }
    ensures err { IfErr result (SendsPart (W.contents (inner_of writer.old)) (W.contents (inner_of writer.new)) (refusal_text refusal)
        (Refused refusal) (has_failed writer.new)) }
    ensures no_store { IfErr result (λ fault. fault ≢ ServeFault.Store) }
{
    send(writer, refusal_bytes(refusal).as_bytes())
}

/// Writes the reply to a message. A refusal takes no memory.
pub(crate) fn write_reply<W: Write>(
    alloc: Global,
    writer: &mut Watched<W>,
    message: &Message<'_>,
    reply: &Reply,
) -> Result<(), ServeFault>
    ensures ok { OnOk result (Appends (W.contents (inner_of writer.old)) (W.contents (inner_of writer.new))
        (reply_text (message_of message.now) (reply_of reply.now))) }
    ensures write_failed { FailsBy result ServeFault.Write (has_failed writer.old) (has_failed writer.new) }
    ensures err { IfErr result (SendsPart (W.contents (inner_of writer.old)) (W.contents (inner_of writer.new))
        (reply_text (message_of message.now) (reply_of reply.now)) (reply_of reply.now) (has_failed writer.new)) }
    ensures no_store { IfErr result (λ fault. fault ≢ ServeFault.Store) }
{
    if let Reply::Refused(refusal) = reply {
        return write_refusal(writer, *refusal);
    }
    let Ok(bytes) = success_text(alloc, message, reply) else {
        return Err(ServeFault::Memory);
    };
    send(writer, bytes.as_slice())
}
