//! What devices are known by.

ghost use Rattle.std.specs.Prelude.{◌≡◌, true};
ghost use Rattle.rollout_model.specs.Rules.{is_token, kept_if};

use crate::inline_bytes::InlineBytes;
use crate::letters;
use crate::limits::{TOKEN_LENGTH_LEAST, TOKEN_LENGTH_LIMIT};
use std::marker::Model;

/// What a device shows to be known: 8 to 64 bytes of `A-Z a-z 0-9 . _ -`. It is never printed, and nothing but its digest is kept.
#[derive(Clone, Copy)]
pub struct Token {
    letters: InlineBytes<TOKEN_LENGTH_LIMIT>,
}

impl Model for Token {
    ghost use Rattle.std.specs.Prelude.{◌≡◌, List, ℕ, true};
    ghost use Rattle.rollout_model.specs.Rules.{is_token};

    ghost Value = { List ℕ };

    ghost view = { λ s. s.letters };

    ghost invariant = { λ s. is_token s.letters ≡ true };

    ghost inverse = { λ v. record { letters = v } };
}

impl Token {
    /// The text, where it is a token. Takes no memory.
    pub fn read(text: &str) -> Option<Token>
        ensures { result ≡ kept_if is_token text.now }
    {
        if !letters::is_word_spelled(text.as_bytes(), TOKEN_LENGTH_LEAST, TOKEN_LENGTH_LIMIT) {
            return None;
        }
        Some(Token {
            letters: InlineBytes::of(text.as_bytes()),
        })
    }

    pub fn as_bytes(&self) -> &[u8]
        ensures value { result.now ≡ self.now }
        ensures token { is_token result.now ≡ true }
    {
        self.letters.as_slice()
    }
}
