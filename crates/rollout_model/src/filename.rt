//! The names of artifacts.

ghost use Rattle.std.specs.Prelude.{◌≡◌, true};
ghost use Rattle.rollout_model.specs.Rules.{is_filename, kept_if};

use crate::inline_bytes::InlineBytes;
use crate::letters;
use crate::limits::FILENAME_LENGTH_LIMIT;
use std::marker::Model;
use std::str;

/// The name of an artifact: 1 to 128 bytes of `A-Z a-z 0-9 . _ -`.
#[derive(Clone, Copy)]
pub struct Filename {
    letters: InlineBytes<FILENAME_LENGTH_LIMIT>,
}

impl Model for Filename {
    ghost use Rattle.std.specs.Prelude.{◌≡◌, List, ℕ, true};
    ghost use Rattle.rollout_model.specs.Rules.{is_filename};

    ghost Value = { List ℕ };

    ghost view = { λ s. s.letters };

    ghost invariant = { λ s. is_filename s.letters ≡ true };

    ghost inverse = { λ v. record { letters = v } };
}

impl Filename {
    /// The text, where it is a filename. Takes no memory.
    pub fn read(text: &str) -> Option<Filename>
        ensures { result ≡ kept_if is_filename text.now }
    {
        if !letters::is_word_spelled(text.as_bytes(), 1, FILENAME_LENGTH_LIMIT) {
            return None;
        }
        Some(Filename {
            letters: InlineBytes::of(text.as_bytes()),
        })
    }

    pub fn as_bytes(&self) -> &[u8]
        ensures value { result.now ≡ self.now }
        ensures filename { is_filename result.now ≡ true }
    {
        self.letters.as_slice()
    }

    pub fn as_str(&self) -> &str
        ensures value { result.now ≡ self.now }
        ensures filename { is_filename result.now ≡ true }
    {
        str::from_utf8(self.as_bytes()).unwrap()
    }
}
