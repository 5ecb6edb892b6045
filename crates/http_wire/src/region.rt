//! Where the head of a message ends, and its lines.
ghost use Rattle.std.specs.Prelude.{◌≡◌, ℕ, ◌≤◌, Bool, true, List, length, take, drop, IfSome, IfNone};
ghost use Rattle.http_wire.specs.Regions.{HasRegion, HasNoRegion, line_ends};
ghost use Rattle.http_wire.specs.private.Parse.{lf_follows_cr};

use memchr::{memchr_iter, memmem};
use rollout_model::limits::HEAD_LENGTH_LIMIT;

const HEAD_END: &[u8] = b"\r\n\r\n";

/// The length of the head region.
pub(crate) fn region_len(bytes: &[u8]) -> Option<usize>
    ensures within { IfSome result (λ n. n ≤ length bytes.now) }
    ensures found { IfSome result (λ n. HasRegion bytes.now (take n bytes.now) (drop n bytes.now)) }
    ensures none { IfNone result (HasNoRegion bytes.now) }
{
    let limit = bytes.len().min(HEAD_LENGTH_LIMIT);
    let place = memmem::find(&bytes[..limit], HEAD_END)?;
    Some(place + HEAD_END.len())
}

/// The ends of a head's lines.
#[derive(Clone, Copy)]
pub(crate) struct LineEnds {
    /// How often CR LF stands there.
    pub(crate) count: usize,
    /// Whether each LF follows a CR.
    pub(crate) strict: bool,
}

/// The line ends in the bytes.
pub(crate) fn line_ends(bytes: &[u8]) -> LineEnds
    ensures count { result.count ≡ line_ends bytes.now }
    ensures strict { result.strict ≡ lf_follows_cr 0 bytes.now }
{
    let mut count = 0;
    let mut strict = true;
    for place in memchr_iter(b'\n', bytes) {
        if place > 0 && bytes.get(place - 1) == Some(&b'\r') {
            count += 1;
        } else {
            strict = false;
        }
    }
    LineEnds { count, strict }
}
