//! The contents of artifacts.

ghost use Rattle.std.specs.Prelude.{◌≡◌, ◌≤◌, length, true, nat_eq, IfOk};
ghost use Rattle.std.specs.Cmp.{on_per, partial_equiv_from_equiv};
ghost use Rattle.std.specs.Cmp.Lexicographic.{pointwise, nat_list_eq_equiv};
ghost use Rattle.rollout_model.specs.Limits.{limits};
ghost use Rattle.rollout_model.specs.Rules.{is_contents, kept_if};

use crate::limits::ARTIFACT_SIZE_LIMIT;
use std::alloc::{AllocError, Global};
use std::marker::Model;

/// The contents of an artifact: 0 to 4,194,304 bytes.
#[derive(Drop)]
pub struct Contents {
    bytes: Vec<u8>,
}

impl Model for Contents {
    ghost use Rattle.std.specs.Prelude.{◌≡◌, List, ℕ, true};
    ghost use Rattle.rollout_model.specs.Rules.{is_contents};

    ghost Value = { List ℕ };

    ghost view = { λ s. s.bytes.items };

    ghost invariant = { λ s. is_contents s.bytes.items ≡ true };
}

/// Whether the bytes aren't too many for an artifact.
fn are_contents(bytes: &[u8]) -> bool
    ensures { result ≡ is_contents bytes.now }
{
    bytes.len() <= ARTIFACT_SIZE_LIMIT
}

impl Contents {
    /// The bytes, where they aren't too many. Takes no memory.
    pub fn from_bytes(bytes: Vec<u8>) -> Option<Contents>
        ensures { result ≡ kept_if is_contents bytes.items }
    {
        if !are_contents(&bytes) {
            return None;
        }
        Some(Contents { bytes })
    }

    pub fn as_slice(&self) -> &[u8]
        ensures value { result.now ≡ self.now }
        ensures contents { is_contents result.now ≡ true }
        ensures fits { length result.now ≤ limits.artifact_size }
    {
        self.bytes.as_slice()
    }

    /// The same contents in memory of their own.
    pub fn copy(&self, alloc: Global) -> Result<Contents, AllocError>
        ensures { IfOk result (λ contents. contents ≡ self.now) }
    {
        let bytes = Vec::from_slice(alloc, self.as_slice())?;
        Ok(Contents { bytes })
    }
}

impl PartialEq for Contents {
    ghost eq = { λ s t. pointwise nat_eq s t };

    ghost laws = { on_per (λ s. s) (partial_equiv_from_equiv nat_list_eq_equiv) };

    fn eq(&self, other: &Self) -> bool {
        self.as_slice() == other.as_slice()
    }
}

impl Eq for Contents {
    ghost laws = { nat_list_eq_equiv };
}
