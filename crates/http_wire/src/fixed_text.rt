//! A short text that takes no memory.
ghost use Rattle.std.specs.Prelude.{◌≡◌, ◌+◌, ◌≤◌, ◌++◌, [], length};
ghost use Rattle.std.specs.Fmt.{decimal};

use itoa::Buffer;
use std::marker::Model;

/// How many bytes a short text has at most.
const CAPACITY: usize = 256;

/// A text of at most 256 bytes, which takes no memory.
#[derive(Drop)]
pub struct FixedText {
    bytes: [u8; CAPACITY],
    len: usize,
}

impl Model for FixedText {
    ghost use Rattle.std.specs.Prelude.{ℕ, ◌≤◌, List, take};

    ghost Value = { List ℕ };

    ghost view = { λ text. take text.len text.bytes };

    ghost invariant = { λ text. text.len ≤ 256 };
}

impl FixedText {
    /// No bytes yet.
    pub fn new() -> FixedText
        ensures { result ≡ [] }
    {
        FixedText {
            bytes: [0; CAPACITY],
            len: 0,
        }
    }

    /// Puts bytes behind what is there.
    pub fn push(&mut self, part: &[u8])
        requires { length self.old + length part.now ≤ 256 }
        ensures text { self.new ≡ self.old ++ part.now }
        ensures len { length self.new ≡ length self.old + length part.now }
    {
        let end = self.len + part.len();
        self.bytes[self.len..end].copy_from_slice(part);
        self.len = end;
    }

    /// Puts the digits of a number behind what is there.
    pub fn push_number(&mut self, number: u64)
        requires { length self.old + 20 ≤ 256 }
        ensures text { self.new ≡ self.old ++ decimal number }
        ensures len { length self.new ≤ length self.old + 20 }
    {
        let mut buffer = Buffer::new();
        self.push(buffer.format(number).as_bytes());
    }

    /// The bytes of the text.
    pub fn as_bytes(&self) -> &[u8]
        ensures { result.now ≡ self.now }
    {
        &self.bytes[..self.len]
    }
}
