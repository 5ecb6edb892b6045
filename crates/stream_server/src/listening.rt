//! Serving connections, one after the other.

ghost use Rattle.std.specs.Prelude.{◌≡◌, ◌≢◌, ◌≤◌, true, List, [], ◌∷◌, IfOk, Err};
ghost use Rattle.rollout_machine.specs.CommandList.{CommandList};
ghost use Rattle.rollout_machine.specs.Standing.{StandsFor, StaysStopped};
ghost use Rattle.stream_server.specs.Arrivals.{Adds, Befalls, Came, Socket, Went, socket_of};
ghost use Rattle.stream_server.specs.Listening.{ComesToEnd, Keeps, KeepsOn, StopsAtStore, told_of};

use crate::connections::{Arrival, Connections};
use crate::serving::serve;
use crate::{Interface, ServeFault, Served};
use http_wire::Watched;
use request_handler::ContentsHandler;
use std::alloc::Global;

/// Why no further connection is served.
#[derive(Clone, Copy)]
pub enum ListenFault {
    /// The store failed: the desk is stopped.
    Store,
    /// A connection couldn't be accepted.
    Net,
}

/// Whether a client is waited for once its connection was served so: one that kept a read or a write waiting, or is gone, isn't.
fn is_waited_for(outcome: Result<Served, ServeFault>) -> bool {
    match outcome {
        Err(ServeFault::Read | ServeFault::Write) => false,
        _ => true,
    }
}

/// Whether a connection was served to its end.
fn tell(outcome: Result<Served, ServeFault>) -> Result<bool, ListenFault>
    ensures { result ≡ told_of outcome }
{
    match outcome {
        Ok(_) => Ok(true),
        Err(ServeFault::Store) => Err(ListenFault::Store),
        Err(_) => Ok(false),
    }
}

/// Serves a connection, and says whether it was served to its end.
fn serve_connection<C: Connections, D: ContentsHandler>(
    alloc: Global,
    desk: &mut D,
    connections: &mut C,
    reader: Watched<C::Reader>,
    writer: Watched<C::Writer>,
    interface: Interface,
) -> Result<bool, ListenFault>
    ensures clean { (D.state desk.new).is_clean → (D.state desk.old).is_clean }
    ensures keeps { (went : Socket) × Adds (λ log. C.has_seen connections.old log) (λ log. C.has_seen connections.new log) (Went went ∷ [])
        × KeepsOn interface (D.state desk.old) (D.state desk.new) result
        (Came (socket_of C.Reader.remaining C.Writer.contents reader writer) ∷ Went went ∷ []) }
    ensures store { StopsAtStore (D.state desk.new) result }
    ensures stopped { (D.state desk.old).is_stopped ≡ true → StaysStopped (D.state desk.old) (D.state desk.new) }
    ensures net { result ≢ Err ListenFault.Net }
{
    let mut reader = reader;
    let mut writer = writer;
    let outcome = serve(alloc, desk, &mut reader, &mut writer, interface);
    connections.let_go(reader, writer, is_waited_for(outcome));
    tell(outcome)
}

/// Serves the next connection, and says whether it was served to its end. One whose waiting can't be limited isn't served.
fn serve_next<C: Connections, D: ContentsHandler>(
    alloc: Global,
    desk: &mut D,
    connections: &mut C,
    interface: Interface,
) -> Result<bool, ListenFault>
    ensures clean { (D.state desk.new).is_clean → (D.state desk.old).is_clean }
    ensures keeps { Befalls (λ log. C.has_seen connections.old log) (λ log. C.has_seen connections.new log)
        (λ events. KeepsOn interface (D.state desk.old) (D.state desk.new) result events × ComesToEnd (C.has_failed connections.new) 1 result events) }
    ensures store { StopsAtStore (D.state desk.new) result }
    ensures stopped { (D.state desk.old).is_stopped ≡ true → StaysStopped (D.state desk.old) (D.state desk.new) }
{
    match connections.accept() {
        Arrival::Net => Err(ListenFault::Net),
        Arrival::Unlimited => Ok(false),
        Arrival::Connection(reader, writer) => {
            serve_connection(alloc, desk, connections, reader, writer, interface)
        }
    }
}

/// Serves so many connections one after the other, and counts those that were served to their end. A fault of reading, writing or memory
/// ends its connection alone; so does a client for which a read waits longer than 30 seconds, or a write longer than 10.
pub fn serve_on<C: Connections, D: ContentsHandler>(
    alloc: Global,
    desk: &mut D,
    connections: &mut C,
    count: u32,
    interface: Interface,
) -> Result<u32, ListenFault>
    ensures clean { (D.state desk.new).is_clean → (D.state desk.old).is_clean }
    ensures keeps { (h : CommandList) → (D.state desk.new).is_clean → StandsFor (D.state desk.old) h
        → Befalls (λ log. C.has_seen connections.old log) (λ log. C.has_seen connections.new log)
        (λ events. Keeps interface (D.state desk.new) h events result) }
    ensures store { StopsAtStore (D.state desk.new) result }
    ensures stopped { (D.state desk.old).is_stopped ≡ true → StaysStopped (D.state desk.old) (D.state desk.new) }
    ensures counts { IfOk result (λ served. served ≤ count) }
    ensures ends { Befalls (λ log. C.has_seen connections.old log) (λ log. C.has_seen connections.new log)
        (λ events. ComesToEnd (C.has_failed connections.new) count result events) }
{
    let mut served = 0;
    for _ in 0..count {
        match serve_next(alloc, desk, connections, interface) {
            Ok(is_whole) => served += u32::from(is_whole),
            Err(fault) => return Err(fault),
        }
    }
    Ok(served)
}
