//! Size and digest.

ghost use Rattle.std.specs.Prelude.{◌≡◌, length};
ghost use Rattle.artifact_pieces.specs.Digests.{digest_of};

use rollout_model::Digest;
use sha2::{Digest as _, Sha256};

/// What an artifact's contents are known by.
#[derive(Clone, Copy)]
pub struct Description {
    /// In bytes.
    pub size: usize,
    /// By SHA-256 (FIPS 180-4).
    pub digest: Digest,
}

/// Size and digest of the contents. Takes no memory.
pub fn describe(contents: &[u8]) -> Description
    ensures size { result.size ≡ length contents.now }
    ensures digest { result.digest ≡ digest_of contents.now }
{
    Description {
        size: contents.len(),
        digest: Digest::new(Sha256::digest(contents)),
    }
}
