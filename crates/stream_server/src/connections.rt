//! Where connections come from.

use http_wire::Watched;
use std::io::{Read, Write};
use std::net::{Shutdown, TcpListener, TcpStream};
use std::time::Duration;

/// What came where a connection was waited for.
#[derive(Drop)]
pub enum Arrival<R, W> {
    /// A connection can't be accepted.
    Net,
    /// One was accepted that isn't served, since its waiting can't be limited.
    Unlimited,
    /// One was accepted: what its client sends, and what is written to it.
    Connection(Watched<R>, Watched<W>),
}

/// What connections come from, one after the other, seen by the bytes that each gives and by those that were written to it.
pub trait Connections {
    ghost use Rattle.std.specs.Prelude.{List, [], ◌∷◌};
    ghost use Rattle.stream_server.specs.Arrivals.{Adds, Event, IfNet, Went, arrived, socket_of};

    type Reader: Read + Drop;

    type Writer: Write + Drop;

    /// These events befell the connections up to now, in this order.
    ghost has_seen: { Self → List Event → Type 0 };

    /// No further connection can be accepted.
    ghost has_failed: { Self → Type 0 };

    /// Waits for the next connection.
    fn accept(&mut self) -> Arrival<Self::Reader, Self::Writer>
        ensures came { Adds (λ log. has_seen self.old log) (λ log. has_seen self.new log) (arrived Self.Reader.remaining Self.Writer.contents result) }
        ensures none { IfNet result (has_failed self.new) };

    /// Lets go of the connection that was accepted last. A client that is waited for may still send what isn't read.
    fn let_go(
        &mut self,
        reader: Watched<Self::Reader>,
        writer: Watched<Self::Writer>,
        is_waited_for: bool,
    )
        ensures went { Adds (λ log. has_seen self.old log) (λ log. has_seen self.new log)
            (Went (socket_of Self.Reader.remaining Self.Writer.contents reader writer) ∷ []) };
}

/// The connections to a port. What a socket gives and takes no contract of the standard library says.
#[derive(Drop)]
pub struct TcpConnections {
    listener: TcpListener,
    /// The connection that was accepted last.
    last: Option<TcpStream>,
}

impl TcpConnections {
    pub fn new(listener: TcpListener) -> TcpConnections {
        TcpConnections {
            listener,
            last: None,
        }
    }
}

/// How long a read of a connection waits for its client, in seconds.
const READ_PATIENCE: u64 = 30;

/// How long a write does. It is a third of that: a write that has waited in vain ends well where a part of it went out before, so a client
/// that reads nothing is waited for by some three of them, until no room is left on the way to it.
const WRITE_PATIENCE: u64 = 10;

/// Lets no read and no write of a connection wait for ever, and says whether that could be set.
fn limit_waiting(stream: &TcpStream) -> bool {
    let read = stream.set_read_timeout(Some(Duration::from_secs(READ_PATIENCE)));
    let write = stream.set_write_timeout(Some(Duration::from_secs(WRITE_PATIENCE)));
    read.is_ok() && write.is_ok()
}

/// How many reads are made of what a client still sends once its connection is served.
const LAST_READS: u32 = 4096;

/// Ends the writing half of a connection and reads what the client still sends, up to 16 MiB: closing it with bytes unread takes back a reply
/// that the client hasn't read yet, as the refusal of a body that is too long. A client that sends nothing more is waited for once.
fn read_out(mut stream: &TcpStream) {
    let Ok(()) = stream.shutdown(Shutdown::Write) else {
        return;
    };
    let mut rest = [0; 4096];
    for _ in 0..LAST_READS {
        match stream.read(&mut rest) {
            Ok(0) | Err(_) => return,
            Ok(_) => {}
        }
    }
}

/// Two more handles of a connection whose waiting is limited: one to read from, and one to write to.
fn halves(stream: &TcpStream) -> Option<(TcpStream, TcpStream)> {
    if !limit_waiting(stream) {
        return None;
    }
    let reader = stream.try_clone().ok()?;
    let writer = stream.try_clone().ok()?;
    Some((reader, writer))
}

impl Connections for TcpConnections {
    type Reader = TcpStream;

    type Writer = TcpStream;

    ghost has_seen = { λ connections log. Unit {0} };

    ghost has_failed = { λ connections. Unit {0} };

    fn accept(&mut self) -> Arrival<TcpStream, TcpStream> {
        let Ok((stream, _peer)) = self.listener.accept() else {
            return Arrival::Net;
        };
        match halves(&stream) {
            Some((reader, writer)) => {
                self.last = Some(stream);
                Arrival::Connection(Watched::new(reader), Watched::new(writer))
            }
            None => Arrival::Unlimited,
        }
    }

    fn let_go(
        &mut self,
        _reader: Watched<TcpStream>,
        _writer: Watched<TcpStream>,
        is_waited_for: bool,
    )
        ensures { Unit {0} }
    {
        if is_waited_for {
            if let Some(stream) = &self.last {
                read_out(stream);
            }
        }
        self.last = None;
    }
}
