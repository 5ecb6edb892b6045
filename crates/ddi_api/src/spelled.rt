//! Ids, filenames and tokens by their bytes. What is spelled by their rules is a text.

ghost use Rattle.std.specs.Prelude.{◌≡◌};
ghost use Rattle.rollout_model.specs.Rules.{kept_if, is_filename, is_token, is_word};

use rollout_model::{ControllerId, Filename, Token};
use std::str;

pub(crate) fn read_id(bytes: &[u8]) -> Option<ControllerId>
    ensures { result ≡ kept_if is_word bytes.now }
{
    match str::from_utf8(bytes) {
        Ok(text) => ControllerId::read(text),
        Err(_) => None,
    }
}

pub(crate) fn read_filename(bytes: &[u8]) -> Option<Filename>
    ensures { result ≡ kept_if is_filename bytes.now }
{
    match str::from_utf8(bytes) {
        Ok(text) => Filename::read(text),
        Err(_) => None,
    }
}

pub(crate) fn read_token(bytes: &[u8]) -> Option<Token>
    ensures { result ≡ kept_if is_token bytes.now }
{
    match str::from_utf8(bytes) {
        Ok(text) => Token::read(text),
        Err(_) => None,
    }
}
