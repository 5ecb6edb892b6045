//! How long a body is (RFC 9112, section 6, without transfer codings).
ghost use Rattle.std.specs.Prelude.{◌≡◌, ◌<◌, IsTrue, map};
ghost use Rattle.std.specs.List.{list_all};
ghost use Rattle.std.specs.Char.{is_ascii_digit, digit_value};
ghost use Rattle.http_wire.specs.BodyLengths.{is_digits, length_of, body_length};
ghost use Rattle.http_wire.specs.Inbox.{field_view};

use crate::fault::WireFault;
use crate::fields::{FieldsOfName, find_named};
use crate::message::Field;
use rollout_model::limits::BODY_LENGTH_LIMIT;

fn are_all_digits(text: &[u8]) -> bool
    ensures { result ≡ list_all is_ascii_digit text.now }
{
    text.iter().all(|b| b.is_ascii_digit())
}

fn is_digits(text: &[u8]) -> bool
    ensures { result ≡ is_digits text.now }
{
    !text.is_empty() && are_all_digits(text)
}

fn digit_of(b: u8) -> usize
    ensures value { IsTrue (is_ascii_digit b) → result ≡ digit_value b }
    ensures small { result < 10 }
{
    match b {
        b'0'..=b'9' => usize::from(b - b'0'),
        _ => 0,
    }
}

fn length_of(text: &[u8]) -> Result<usize, WireFault>
    ensures { result ≡ length_of text.now }
{
    if !is_digits(text) {
        return Err(WireFault::BadLength);
    }
    let mut length = 0;
    for b in text {
        length = length * 10 + digit_of(*b);
        if length > BODY_LENGTH_LIMIT {
            return Err(WireFault::TooLarge);
        }
    }
    Ok(length)
}

/// The length of the body that follows these fields, in bytes.
#[tactic(auto, unfolding(crate::specs::BodyLengths::body_length))]
pub(crate) fn body_length(fields: &[Field<'_>]) -> Result<usize, WireFault>
    ensures { result ≡ body_length (map field_view fields.now) }
{
    match find_named(fields, b"transfer-encoding") {
        FieldsOfName::Absent => match find_named(fields, b"content-length") {
            FieldsOfName::Absent => Ok(0),
            FieldsOfName::Once(field) => length_of(field.value),
            FieldsOfName::Repeated => Err(WireFault::BadLength),
        },
        FieldsOfName::Once(_) | FieldsOfName::Repeated => Err(WireFault::BadCoding),
    }
}
