//! Bytes in an array with a length.

ghost use Rattle.std.specs.Prelude.{◌≡◌, ◌≤◌, ◌-◌, ◌++◌, length, replicate};

use std::marker::Model;

/// At most `N` bytes, which lie in the value itself and take no memory. What is past them is 0.
#[derive(Clone, Copy)]
pub struct InlineBytes<const N: usize> {
    bytes: [u8; N],
    len: usize,
}

impl<const N: usize> Model for InlineBytes<N> {
    ghost use Rattle.std.specs.Prelude.{◌≡◌, ◌≤◌, ◌-◌, ◌++◌, List, ℕ, take, length, replicate};
    ghost use Rattle.std.proofs.Common.{arith, length-take-le};
    ghost use Rattle.rollout_model.specs.Padded.{padded_again};

    ghost Value = { List ℕ };

    ghost view = { λ s. take s.len s.bytes };

    ghost invariant = { λ s. (s.len ≤ N) × (length s.bytes ≡ N) × (s.bytes ≡ take s.len s.bytes ++ replicate (N - s.len) 0) };

    ghost inverse = { λ v. record { bytes = v ++ replicate (N - length v) 0; len = length v } };

    ghost inverse_ok = { λ s h i. record {
      bytes = padded_again N s.len s.bytes h.0 h.1 h.2 i;
      len = length-take-le s.len s.bytes (omega (arith, h.0, h.1)) i;
    } };
}

impl<const N: usize> InlineBytes<N> {
    /// The bytes, which the caller knows to fit.
    pub fn of(bytes: &[u8]) -> Self
        requires { length bytes.now ≤ N }
        ensures { result ≡ bytes.now }
    {
        let mut room = [0; N];
        room[..bytes.len()].copy_from_slice(bytes);
        InlineBytes {
            bytes: room,
            len: bytes.len(),
        }
    }

    pub fn as_slice(&self) -> &[u8]
        ensures value { result.now ≡ self.now }
        ensures fits { length result.now ≤ N }
    {
        &self.bytes[..self.len]
    }
}
