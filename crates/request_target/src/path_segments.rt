//! The segments of a path.

ghost use Rattle.std.specs.Prelude.{◌≡◌, ◌<◌, ◌≤◌, ◌+◌, [], ◌∷◌, length, take, drop, slice_get, option_and_then, option_map};
ghost use Rattle.std.specs.Option.{MatchOption};
ghost use Rattle.request_target.specs.Numbers.{decimal_number};
ghost use Rattle.request_target.specs.Routes.{segments};

use crate::numbers::read_digits;

/// The place of the first slash.
fn slash_at(path: &[u8]) -> Option<usize>
    ensures bound { MatchOption result (segments path.now ≡ path.now ∷ []) (λ k. k < length path.now) }
    ensures cut { MatchOption result (segments path.now ≡ path.now ∷ []) (λ k. segments path.now ≡ take k path.now ∷ segments (drop (k + 1) path.now)) }
{
    for (at, byte) in path.iter().enumerate() {
        if *byte == b'/' {
            return Some(at);
        }
    }
    None
}

fn before(path: &[u8], at: usize) -> &[u8]
    requires { at ≤ length path.now }
    ensures { result.now ≡ take at path.now }
{
    &path[..at]
}

fn behind(path: &[u8], at: usize) -> &[u8]
    requires { at ≤ length path.now }
    ensures { result.now ≡ drop at path.now }
{
    &path[at..]
}

/// The segment of a path at a place: what stands before the first slash is at 0.
pub fn segment_at(path: &[u8], place: usize) -> Option<&[u8]>
    ensures { option_map (λ s. s.now) result ≡ slice_get (segments path.now) place }
{
    match slash_at(path) {
        None => { if place == 0 { Some(path) } else { None } }
        Some(at) => {
            if place == 0 {
                Some(before(path, at))
            } else {
                segment_at(behind(path, at + 1), place - 1)
            }
        }
    }
}

/// The number that the segment at a place writes, in digits without a leading zero.
pub fn number_at(path: &[u8], place: usize) -> Option<u32>
    ensures { result ≡ option_and_then decimal_number (slice_get (segments path.now) place) }
{
    let digits = segment_at(path, place)?;
    read_digits(digits)
}
