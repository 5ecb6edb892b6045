//! What a query says to a call that names its keys.

ghost use Rattle.std.specs.Prelude.{◌≡◌, map, option_map, bytes_eq, is_some, IfOk};
ghost use Rattle.std.specs.List.{list_any};
ghost use Rattle.request_target.specs.Pairs.{seen};
ghost use Rattle.request_target.specs.Queries.{are_clean, query_pairs_of, value_of, number_or};

use crate::numbers::read_number;
use crate::pairs::{has_replacement, read_pairs};
use std::alloc::{AllocError, Global};

fn is_named(keys: &[&str], key: &str) -> bool
    ensures { result ≡ list_any (λ k. bytes_eq key.now k) (map (λ k. k.now) keys.now) }
{
    match keys {
        [] => false,
        [first, rest @ ..] => key == *first || is_named(rest, key),
    }
}

fn has_key(pairs: &[(String, String)], key: &str) -> bool
    ensures { result ≡ list_any (λ q. bytes_eq q.0 key.now) (map seen pairs.now) }
{
    match pairs {
        [] => false,
        [(name, _), rest @ ..] => name.as_str() == key || has_key(rest, key),
    }
}

/// Whether each key is named by the call and given once, and no pair holds U+FFFD.
pub fn are_clean(keys: &[&str], pairs: &[(String, String)]) -> bool
    ensures { result ≡ are_clean (map (λ k. k.now) keys.now) (map seen pairs.now) }
{
    match pairs {
        [] => true,
        [(name, value), rest @ ..] => {
            !has_replacement(name.as_bytes())
                && !has_replacement(value.as_bytes())
                && is_named(keys, name.as_str())
                && !has_key(rest, name.as_str())
                && are_clean(keys, rest)
        }
    }
}

/// The value of a key.
pub fn value_of<'a>(pairs: &'a [(String, String)], key: &str) -> Option<&'a str>
    ensures { option_map (λ s. s.now) result ≡ value_of key.now (map seen pairs.now) }
{
    match pairs {
        [] => None,
        [(name, value), rest @ ..] => {
            if name.as_str() == key {
                Some(value.as_str())
            } else {
                value_of(rest, key)
            }
        }
    }
}

/// The number of a value from `low` to `high`, or the default where there is no value; `None` for any other value.
pub fn number_or(low: u32, high: u32, default: u32, value: Option<&str>) -> Option<u32>
    ensures { result ≡ number_or low high default (option_map (λ s. s.now) value.entry) }
{
    match value {
        None => Some(default),
        Some(text) => {
            let n = read_number(text)?;
            if low <= n && n <= high { Some(n) } else { None }
        }
    }
}

/// The pairs of a query, decoded, where a call that names these keys takes the query.
pub fn read_query(
    alloc: Global,
    keys: &[&str],
    query: &[u8],
) -> Result<Option<Vec<(String, String)>>, AllocError>
    ensures { IfOk result (λ taken. option_map (λ v. map seen v.items) taken ≡ query_pairs_of (map (λ k. k.now) keys.now) query.now) }
{
    let pairs = read_pairs(alloc, query)?;
    if are_clean(keys, &pairs) {
        Ok(Some(pairs))
    } else {
        Ok(None)
    }
}

/// Whether a call that names these keys takes the query.
pub fn takes_query(alloc: Global, keys: &[&str], query: &[u8]) -> Result<bool, AllocError>
    ensures { IfOk result (λ takes. takes ≡ is_some (query_pairs_of (map (λ k. k.now) keys.now) query.now)) }
{
    let taken = read_query(alloc, keys, query)?;
    Ok(taken.is_some())
}
