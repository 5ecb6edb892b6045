//! SHA-256 digests.

ghost use Rattle.std.specs.Prelude.{◌≡◌, true, length};
ghost use Rattle.rollout_model.specs.Rules.{is_digest, kept_if};

use crate::limits::DIGEST_LENGTH;
use std::marker::Model;

/// A SHA-256 digest (FIPS 180-4): 32 bytes.
#[derive(Clone, Copy, PartialEq, Eq)]
pub struct Digest {
    bytes: [u8; DIGEST_LENGTH],
}

impl Model for Digest {
    ghost use Rattle.std.specs.Prelude.{◌≡◌, List, ℕ, true};
    ghost use Rattle.rollout_model.specs.Rules.{is_digest};

    ghost Value = { List ℕ };

    ghost view = { λ s. s.bytes };

    ghost invariant = { λ s. is_digest s.bytes ≡ true };

    ghost inverse = { λ v. record { bytes = v } };
}

impl Digest {
    pub fn new(bytes: [u8; 32]) -> Digest
        ensures { result ≡ bytes }
    {
        Digest::of(&bytes)
    }

    /// The bytes, where there are 32. Takes no memory.
    pub fn read(bytes: &[u8]) -> Option<Digest>
        ensures { result ≡ kept_if is_digest bytes.now }
    {
        if bytes.len() != DIGEST_LENGTH {
            return None;
        }
        Some(Digest::of(bytes))
    }

    fn of(bytes: &[u8]) -> Digest
        requires { length bytes.now ≡ 32 }
        ensures { result ≡ bytes.now }
    {
        let mut own = [0; DIGEST_LENGTH];
        own.copy_from_slice(bytes);
        Digest { bytes: own }
    }

    pub fn as_bytes(&self) -> &[u8; 32]
        ensures value { result.now ≡ self.now }
        ensures digest { is_digest result.now ≡ true }
    {
        &self.bytes
    }
}
