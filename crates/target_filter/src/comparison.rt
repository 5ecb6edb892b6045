//! Comparisons of a field with a value.

ghost use Rattle.std.specs.Prelude.{◌≡◌};
ghost use Rattle.std.specs.Result.{MatchResult};
ghost use Rattle.std.specs.Option.{option_map};
ghost use Rattle.target_filter.specs.Descent as descent;
ghost use Rattle.target_filter.specs.Views.{field_of, operator_of, value_of};
ghost use Rattle.target_filter.specs.private.Gives.{Gives, GivesAs};
ghost use Rattle.target_filter.specs.declared.comparison.ParseFault.TheVariants.{Memory};

use crate::byte_kind::{ByteKind, split_run};
use crate::tree::{Field, Operator, Tree, Value};
use std::alloc::{AllocError, AllocFailed, Global};

#[derive(Clone, Copy)]
pub(crate) enum ParseFault {
    Memory,
    /// The text doesn't begin with what is read.
    Missing,
}

impl From<AllocError> for ParseFault {
    ghost from_gives = { λ _ e. e ≡ Memory };

    fn from(_: AllocError) -> Self {
        ParseFault::Memory
    }
}

impl<T: Drop> From<AllocFailed<T>> for ParseFault {
    ghost from_gives = { λ _ e. e ≡ Memory };

    fn from(_: AllocFailed<T>) -> Self {
        ParseFault::Memory
    }
}

fn copied(alloc: Global, bytes: &[u8]) -> Result<Vec<u8>, ParseFault>
    ensures { MatchResult result (λ v. v.items ≡ bytes.now) (λ e. e ≡ ParseFault.Memory) }
{
    Ok(bytes.to_vec(alloc)?)
}

fn attribute_field(alloc: Global, name: &[u8]) -> Result<Field, ParseFault>
    ensures { GivesAs field_of (descent.attribute_field name.now) result }
{
    let Some(key) = name.strip_prefix(b"attribute.") else {
        return Err(ParseFault::Missing);
    };
    let key = copied(alloc, key)?;
    Ok(Field::Attribute(key))
}

fn field_of_name(alloc: Global, name: &[u8]) -> Result<Field, ParseFault>
    ensures { GivesAs field_of (descent.field_of_name name.now) result }
{
    if name == b"controllerid".as_slice() {
        Ok(Field::Id)
    } else if name == b"name".as_slice() {
        Ok(Field::Name)
    } else if name == b"tag".as_slice() {
        Ok(Field::Tag)
    } else {
        attribute_field(alloc, name)
    }
}

fn operator_at(text: &[u8]) -> Option<(Operator, &[u8])>
    ensures { option_map (λ x. (operator_of x.0, x.1.now)) result ≡ descent.operator_at text.now }
{
    match text {
        [b'=', b'=', rest @ ..] => Some((Operator::Equal, rest)),
        [b'!', b'=', rest @ ..] => Some((Operator::NotEqual, rest)),
        _ => None,
    }
}

fn quoted_value<'a>(
    alloc: Global,
    pattern: &[u8],
    text: &'a [u8],
) -> Result<(Value, &'a [u8]), ParseFault>
    ensures { GivesAs (λ x. (value_of x.0, x.1.now)) (descent.quoted_value pattern.now text.now) result }
{
    match text {
        [b'"', rest @ ..] => {
            let pattern = copied(alloc, pattern)?;
            Ok((Value::Quoted(pattern), rest))
        }
        _ => Err(ParseFault::Missing),
    }
}

fn bare_value<'a>(
    alloc: Global,
    pattern: &[u8],
    text: &'a [u8],
) -> Result<(Value, &'a [u8]), ParseFault>
    ensures { GivesAs (λ x. (value_of x.0, x.1.now)) (descent.bare_value pattern.now text.now) result }
{
    if pattern.is_empty() {
        return Err(ParseFault::Missing);
    }
    let pattern = copied(alloc, pattern)?;
    Ok((Value::Bare(pattern), text))
}

fn value_at(alloc: Global, text: &[u8]) -> Result<(Value, &[u8]), ParseFault>
    ensures { GivesAs (λ x. (value_of x.0, x.1.now)) (descent.value_at text.now) result }
{
    match text {
        [b'"', quoted @ ..] => {
            let (pattern, rest) = split_run(ByteKind::Quotable, quoted);
            quoted_value(alloc, pattern, rest)
        }
        _ => {
            let (pattern, rest) = split_run(ByteKind::Bare, text);
            bare_value(alloc, pattern, rest)
        }
    }
}

/// The comparison with which the text begins, and what stands behind it.
pub(crate) fn comparison_at(alloc: Global, text: &[u8]) -> Result<(Tree, &[u8]), ParseFault>
    ensures { Gives (descent.comparison_at text.now) result }
{
    let (name, rest) = split_run(ByteKind::Letter, text);
    let field = field_of_name(alloc, name)?;
    let Some((operator, rest)) = operator_at(rest) else {
        return Err(ParseFault::Missing);
    };
    let (value, rest) = value_at(alloc, rest)?;
    Ok((Tree::Comparison(field, operator, value), rest))
}
