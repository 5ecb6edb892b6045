//! What a whole stream is.
ghost use Rattle.std.specs.Prelude.{◌≡◌, ℕ, List, length};
ghost use Rattle.http_wire.specs.Regions.{line_ends, HasLines};
ghost use Rattle.http_wire.specs.Messages.{WireMessage};
ghost use Rattle.http_wire.specs.Streams.{HasMessages};

use crate::fault::WireFault;
use crate::message::{NoMessage, read_front};

/// How a stream ends after its whole messages.
#[derive(Clone, Copy)]
pub enum End {
    /// With nothing more.
    Input,
    /// Within a message.
    Cut,
    /// With what is no message, whatever follows.
    Fault(WireFault),
}

/// What a whole stream is read to.
#[derive(Clone, Copy)]
pub struct Reading {
    /// How many whole messages it has.
    pub messages: usize,
    pub end: End,
}

/// Counts the messages of a whole stream, and says how it ends: each stream has a reading.
pub fn reading_of(stream: &[u8]) -> Reading
    ensures { (ms : List WireMessage) × HasMessages stream.now ms result.end × (result.messages ≡ length ms) }
{
    let mut messages = 0;
    let mut rest = stream;
    while !rest.is_empty() {
        match read_front(rest) {
            Ok((_, len)) => {
                messages += 1;
                rest = rest.split_at(len).1;
            }
            Err(NoMessage::AtFault(fault)) => return Reading {
                messages,
                end: End::Fault(fault),
            },
            Err(NoMessage::Wants(_)) => return Reading {
                messages,
                end: End::Cut,
            },
        }
    }
    Reading {
        messages,
        end: End::Input,
    }
}

/// A stream has one reading, however it comes: the same messages and the same end.
pub fn one_reading()
    ensures { (bytes : List ℕ) (ms ns : List WireMessage) (e f : End) → HasMessages bytes ms e → HasMessages bytes ns f → (ms ≡ ns) × (e ≡ f) }
{}

/// The line ends of a head region are as many as its lines.
pub fn line_ends_are_lines()
    ensures { (region : List ℕ) (lines : List (List ℕ)) → HasLines region lines → line_ends region ≡ length lines }
{}
