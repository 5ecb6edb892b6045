//! Patterns in which each `*` stands for any text.

ghost use Rattle.std.specs.Prelude.{◌≡◌, ◌<◌, ◌≤◌, ◌+◌, [], ◌∷◌, length, take, drop, slice_index, nat_eq};
ghost use Rattle.std.specs.List.{ends_with};
ghost use Rattle.std.specs.Option.{MatchOption, option_map};
ghost use Rattle.target_filter.specs.Names.{before_star};
ghost use Rattle.target_filter.specs.Patterns.{pieces, matches};
ghost use Rattle.target_filter.specs.private.Greedy.{after, greedy};

/// The place of the first star.
fn star_at(pattern: &[u8]) -> Option<usize>
    ensures bound { MatchOption result (pieces pattern.now ≡ pattern.now ∷ []) (λ k. k < length pattern.now) }
    ensures cut { MatchOption result (pieces pattern.now ≡ pattern.now ∷ [])
        (λ k. pieces pattern.now ≡ take k pattern.now ∷ pieces (drop (k + 1) pattern.now)) }
{
    for (at, byte) in pattern.iter().enumerate() {
        if *byte == b'*' {
            return Some(at);
        }
    }
    None
}

fn before(text: &[u8], at: usize) -> &[u8]
    requires { at ≤ length text.now }
    ensures { result.now ≡ take at text.now }
{
    &text[..at]
}

/// What stands before the first star.
pub(crate) fn before_star(pattern: &[u8]) -> &[u8]
    ensures { result.now ≡ before_star pattern.now }
{
    match star_at(pattern) {
        None => pattern,
        Some(at) => before(pattern, at),
    }
}

fn behind(text: &[u8], at: usize) -> &[u8]
    requires { at ≤ length text.now }
    ensures { result.now ≡ drop at text.now }
{
    &text[at..]
}

/// What stands behind the first place of a piece.
fn after<'a>(piece: &[u8], text: &'a [u8]) -> Option<&'a [u8]>
    ensures { option_map (λ rest. rest.now) result ≡ after piece.now text.now }
{
    let mut rest = text;
    loop {
        if rest.starts_with(piece) {
            return Some(behind(rest, piece.len()));
        }
        match rest {
            [] => return None,
            [_, tail @ ..] => rest = tail,
        }
    }
}

/// Does the pattern match the text, with a star before it?
///
/// Each piece is taken at its first place and the last one at the end, so nothing is tried twice.
fn matches_behind(pattern: &[u8], text: &[u8]) -> bool
    ensures { result ≡ greedy (pieces pattern.now) text.now }
{
    match star_at(pattern) {
        None => text.ends_with(pattern),
        Some(at) => match after(before(pattern, at), text) {
            None => false,
            Some(rest) => matches_behind(behind(pattern, at + 1), rest),
        },
    }
}

/// Does the pattern match the text?
pub(crate) fn matches(pattern: &[u8], text: &[u8]) -> bool
    ensures { result ≡ matches pattern.now text.now }
{
    match star_at(pattern) {
        None => pattern == text,
        Some(at) => text.starts_with(before(pattern, at))
            && matches_behind(behind(pattern, at + 1), behind(text, at)),
    }
}
