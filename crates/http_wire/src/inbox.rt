//! What has come of a stream, and the messages in it.
ghost use Rattle.std.specs.Prelude.{IsTrue, ◌↔◌, length, ◌≡◌, ℕ, List, [], ◌++◌, OnOk, OnErr, IfErr};
ghost use Rattle.std.specs.Borrow.{sem};
ghost use Rattle.std.specs.Io.BufRead.{Rests};

use crate::fault::WireFault;
use crate::message::{Message, NoMessage, read_front};
use rollout_model::Refusal;
use std::alloc::Global;
use std::marker::Model;

/// The bytes of a stream that are not yet handed out.
#[derive(Drop)]
pub struct Inbox {
    bytes: Vec<u8>,
    start: usize,
    /// Neither a message nor a fault stands at `start` in fewer bytes than that. So a head isn't read again with each piece of its body.
    wanted: usize,
}

impl Model for Inbox {
    ghost use Rattle.std.specs.Prelude.{ℕ, ◌≤◌, List, drop, vec_len};
    ghost use Rattle.http_wire.specs.Fronts.{IsUndecidedBelow};

    ghost Value = { List ℕ };

    ghost view = { λ inbox. drop inbox.start inbox.bytes.items };

    ghost invariant = { λ inbox. (inbox.start ≤ vec_len inbox.bytes) × IsUndecidedBelow inbox.wanted (drop inbox.start inbox.bytes.items) };
}

impl Inbox {
    ghost use Rattle.http_wire.specs.Inbox.{HandsOut};
    ghost use Rattle.http_wire.specs.Messages.{WireMessage, IsFault};
    ghost use Rattle.http_wire.specs.Streams.{Begins};
    ghost use Rattle.rollout_model.specs.declared.Refusal.TheVariants.{NoMemory};
    ghost use Rattle.http_wire.specs.contracts.inbox.Inbox.{the_row};

    /// Nothing has come yet. It takes no memory.
    pub fn new(alloc: Global) -> Inbox
        ensures { result ≡ [] }
    {
        Inbox {
            bytes: Vec::new(alloc),
            start: 0,
            wanted: 0,
        }
    }

    /// Whether everything that came was handed out.
    pub fn is_empty(&self) -> bool
        ensures { IsTrue result ↔ (length self.now ≡ 0) }
    {
        self.start == self.bytes.len()
    }

    /// Takes the next piece of the stream, of any length. Once the length of a message is known there is room for all of it, so that its
    /// body isn't moved with each piece.
    #[tactic(auto, using(crate::proofs::MessageLemmas::begins_append))]
    pub fn feed(&mut self, piece: &[u8]) -> Result<(), Refusal>
        ensures ok { OnOk result (self.new ≡ self.old ++ piece.now) }
        ensures memory { IfErr result (λ refusal. refusal ≡ NoMemory) }
        ensures unchanged { OnErr result (self.new ≡ self.old) }

        // Messages that begin a stream begin the longer one.
        ensures first { (fed : List ℕ) (given : List WireMessage) → Begins fed given self.old → Begins (fed ++ piece.now) given (self.old ++ piece.now) }

        // The messages that were handed out stay the first ones, and a fault stays.
        ensures so_far { OnOk result ((fed : List ℕ) (given : List WireMessage) → Begins fed given self.old → Begins (fed ++ piece.now) given self.new) }
        ensures fault { OnOk result ((fault : WireFault) → IsFault self.old fault → IsFault self.new fault) }
    {
        let _ = self.bytes.drain(..self.start);
        self.start = 0;
        let lacking = self.wanted.saturating_sub(self.bytes.len());
        self.bytes.reserve(lacking.saturating_add(piece.len()))?;
        self.bytes.extend_from_slice(piece)?;
        Ok(())
    }

    /// The next whole message, or the fault that stands in its place, which later calls answer again. It takes no memory.
    pub fn next(&mut self) -> Option<Result<Message<'_>, WireFault>>
        ensures* after_borrow { sem 𝓛 (Rests the_row self.entry (λ left. HandsOut self.old result left)) }
    {
        let at = self.start;
        if self.bytes.len() - at < self.wanted {
            return None;
        }
        match read_front(&self.bytes[at..]) {
            Ok((message, len)) => {
                self.start = at + len;
                self.wanted = 0;
                Some(Ok(message))
            }
            Err(NoMessage::AtFault(fault)) => Some(Err(fault)),
            Err(NoMessage::Wants(len)) => {
                self.wanted = len;
                None
            }
        }
    }
}
