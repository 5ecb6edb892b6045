//! The pairs of a query.

ghost use Rattle.std.specs.Prelude.{◌≡◌, IfOk, map};
ghost use Rattle.request_target.specs.Pairs.{query_pairs, seen, has_replacement};

use std::alloc::{AllocError, Global};

/// The pairs of a query, decoded.
pub fn read_pairs(alloc: Global, query: &[u8]) -> Result<Vec<(String, String)>, AllocError>
    ensures { IfOk result (λ v. map seen v.items ≡ query_pairs query.now) }
{
    let mut pairs = Vec::new(alloc);
    for item in form_urlencoded::parse(alloc, query).into_owned() {
        let pair = item?;
        pairs.push(pair)?;
    }
    Ok(pairs)
}

/// Whether the bytes of U+FFFD stand in the text.
pub fn has_replacement(text: &[u8]) -> bool
    ensures { result ≡ has_replacement text.now }
{
    match text {
        [a, b, c, ..] => { (*a == 239 && *b == 191 && *c == 189) || has_replacement(&text[1..]) }
        _ => false,
    }
}
