//! Answers to messages.

ghost use Rattle.std.specs.Prelude.{◌≡◌, ◌≢◌, ℕ, ◌+◌, ◌<◌, ◌^◌, ◌-◌, ◌∷◌, [], List, length, min, true, false, IfOk, IfErr};
ghost use Rattle.request_handler.specs.Downloads.{Begins, IfContents, IfReply};
ghost use Rattle.http_wire.specs.Messages.{WireMessage};
ghost use Rattle.http_wire.specs.Inbox.{message_of};
ghost use Rattle.http_wire.specs.Watched.{inner_of, has_failed};
ghost use Rattle.rollout_model.specs.declared.refusal.Refusal.TheVariants.{Stopped, StoreFailed};
ghost use Rattle.rollout_machine.specs.Replies.{Refused};
ghost use Rattle.rollout_machine.specs.Requests.{Asks};
ghost use Rattle.rollout_machine.specs.Views.{reply_of, request_of};
ghost use Rattle.rollout_machine.specs.Standing.{StaysStopped};
ghost use Rattle.stream_server.specs.Interfaces.{reading, reply_text};
ghost use Rattle.stream_server.specs.Headline.{FailsBy};
ghost use Rattle.stream_server.specs.Parts.{Serves, fault_of, GivesReply, Takes, StopsAt};

use crate::ServeFault;
use crate::download::send_contents;
use crate::reply::write_reply;
use crate::routes::Routes;
use http_wire::{Inbox, Message, Watched, WireFault};
use request_handler::{Answered, ContentsHandler};
use rollout_machine::says_store_failed;
use rollout_model::{Refusal, Reply, Request};
use std::alloc::Global;
use std::io::Write;

/// What the desk answers to a request.
fn ask_request<D: ContentsHandler>(desk: &mut D, request: &Request) -> Answered
    ensures clean { (D.state desk.new).is_clean → (D.state desk.old).is_clean }
    ensures begins { Begins (D.state desk.old) (D.state desk.new) (Asks (request_of request.now)) result }
    ensures runs { IfContents result (λ _. (D.state desk.old).is_stopped ≡ false) }
    ensures stops { IfReply result (λ reply. reply_of reply ≡ Refused StoreFailed → (D.state desk.new).is_stopped ≡ true) }
    ensures stopped { (D.state desk.old).is_stopped ≡ true
        → IfReply result (λ reply. reply_of reply ≡ Refused Stopped) × StaysStopped (D.state desk.old) (D.state desk.new) }
{
    match request {
        Request::Ask(query) => desk.begin_download(query),
        Request::Do(_) => Answered::Reply(desk.handle(request)),
    }
}

/// What the desk answers to a message.
fn ask<D: ContentsHandler>(desk: &mut D, routes: &Routes, message: &Message<'_>) -> Answered
    ensures clean { (D.state desk.new).is_clean → (D.state desk.old).is_clean }
    ensures begins { Begins (D.state desk.old) (D.state desk.new) (reading routes.now.interface (message_of message.now)) result }
    ensures runs { IfContents result (λ _. (D.state desk.old).is_stopped ≡ false) }
    ensures stops { IfReply result (λ reply. reply_of reply ≡ Refused StoreFailed → (D.state desk.new).is_stopped ≡ true) }
    ensures stopped { (D.state desk.old).is_stopped ≡ true
        → IfReply result (λ reply. reply_of reply ≡ Refused Stopped) × StaysStopped (D.state desk.old) (D.state desk.new) }
{
    if desk.is_stopped() {
        return Answered::Reply(Reply::Refused(Refusal::Stopped));
    }
    match routes.read(message) {
        Ok(request) => ask_request(desk, &request),
        Err(refusal) => Answered::Reply(Reply::Refused(refusal)),
    }
}

/// Writes the reply that the desk gave to a message. The fault `Store` says that this reply tells of a failed store, and was written whole.
fn give_reply<W: Write>(
    alloc: Global,
    writer: &mut Watched<W>,
    message: &Message<'_>,
    reply: &Reply,
) -> Result<(), ServeFault>
    ensures gives { GivesReply (W.contents (inner_of writer.old)) (W.contents (inner_of writer.new))
        (reply_text (message_of message.now) (reply_of reply.now)) (reply_of reply.now) (has_failed writer.new) (fault_of result) }
    ensures write_failed { FailsBy result ServeFault.Write (has_failed writer.old) (has_failed writer.new) }
    ensures reads_nothing { IfErr result (λ fault. fault ≢ ServeFault.Read) }
    ensures store { IfErr result (λ fault. fault ≡ ServeFault.Store → reply_of reply.now ≡ Refused StoreFailed) }
{
    write_reply(alloc, writer, message, reply)?;
    if says_store_failed(reply) {
        return Err(ServeFault::Store);
    }
    Ok(())
}

/// Answers one message.
fn answer_one<W: Write, D: ContentsHandler>(
    alloc: Global,
    desk: &mut D,
    routes: &Routes,
    writer: &mut Watched<W>,
    message: &Message<'_>,
) -> Result<(), ServeFault>
    ensures serves { Serves routes.now.interface (D.state desk.old) (D.state desk.new) (W.contents (inner_of writer.old)) (W.contents (inner_of writer.new))
        (message_of message.now ∷ []) (fault_of result) }
    ensures write_failed { FailsBy result ServeFault.Write (has_failed writer.old) (has_failed writer.new) }
    ensures reads_nothing { IfErr result (λ fault. fault ≢ ServeFault.Read) }
    ensures stops { IfErr result (λ fault. fault ≡ ServeFault.Store → (D.state desk.new).is_stopped ≡ true) }
{
    match ask(desk, routes, message) {
        Answered::Contents(download) => send_contents(alloc, desk, writer, download),
        Answered::Reply(reply) => give_reply(alloc, writer, message, &reply),
    }
}

/// Where the answering stopped: how many messages are answered, and the fault that is next.
#[derive(Clone, Copy)]
pub(crate) struct Stop {
    pub(crate) answered: u64,
    pub(crate) fault: Option<WireFault>,
}

/// Answers each whole message in the inbox, and counts on.
pub(crate) fn answer_all<W: Write, D: ContentsHandler>(
    alloc: Global,
    desk: &mut D,
    routes: &Routes,
    inbox: &mut Inbox,
    writer: &mut Watched<W>,
    before: u64,
) -> Result<Stop, ServeFault>
    ensures serves { (ms : List WireMessage) × Takes inbox.old ms inbox.new
        × IfOk result (λ stop. stop.answered ≡ min (before + length ms) (2 ^ 64 - 1))
        × Serves routes.now.interface (D.state desk.old) (D.state desk.new) (W.contents (inner_of writer.old)) (W.contents (inner_of writer.new)) ms
        (fault_of result) }
    ensures end { IfOk result (λ stop. StopsAt inbox.new stop.fault) }
    ensures write_failed { FailsBy result ServeFault.Write (has_failed writer.old) (has_failed writer.new) }
    ensures reads_nothing { IfErr result (λ fault. fault ≢ ServeFault.Read) }
    ensures stops { IfErr result (λ fault. fault ≡ ServeFault.Store → (D.state desk.new).is_stopped ≡ true) }
{
    let mut answered = before;
    loop {
        match inbox.next() {
            None => {
                return Ok(Stop {
                    answered,
                    fault: None,
                });
            }
            Some(Err(fault)) => {
                return Ok(Stop {
                    answered,
                    fault: Some(fault),
                });
            }
            Some(Ok(message)) => answer_one(alloc, desk, routes, writer, &message)?,
        }
        answered = answered.saturating_add(1);
    }
}
