//! Digests as hexadecimal digits.

ghost use Rattle.std.specs.Prelude.{◌≡◌, IfOk, string_bytes};
ghost use Rattle.artifact_pieces.specs.Digests.{digest_digits, digest_named};

use hex::FromHex;
use rollout_model::Digest;
use std::alloc::{AllocError, Global};

/// The digest as 64 hexadecimal digits, in lower case.
pub fn digest_text(alloc: Global, digest: &Digest) -> Result<String, AllocError>
    ensures { IfOk result (λ text. string_bytes text ≡ digest_digits digest.now) }
{
    hex::encode(alloc, digest.as_bytes())
}

/// The digest that the text names: 64 hexadecimal digits, of either case. Takes no memory.
pub fn read_digest(text: &str) -> Option<Digest>
    ensures { result ≡ digest_named text.now }
{
    let bytes = <[u8; 32] as FromHex>::from_hex(text).ok()?;
    Some(Digest::new(bytes))
}
