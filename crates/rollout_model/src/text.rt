//! Names, kinds and versions.

ghost use Rattle.std.specs.Prelude.{◌≡◌, true, nat_eq, IfOk};
ghost use Rattle.std.specs.Cmp.{on_per, partial_equiv_from_equiv};
ghost use Rattle.std.specs.Cmp.Lexicographic.{pointwise, nat_list_eq_equiv};
ghost use Rattle.rollout_model.specs.Rules.{is_text, kept_if};

use crate::letters;
use crate::limits::TEXT_LENGTH_LIMIT;
use std::alloc::{AllocError, Global};
use std::marker::Model;

/// A name, a kind or a version: 1 to 128 bytes of UTF-8 without control characters (U+0000 to U+001F, U+007F).
#[derive(Drop)]
pub struct Text {
    text: String,
}

impl Model for Text {
    ghost use Rattle.std.specs.Prelude.{◌≡◌, List, ℕ, true, string_bytes};
    ghost use Rattle.rollout_model.specs.Rules.{is_text};

    ghost Value = { List ℕ };

    ghost view = { λ s. string_bytes s.text };

    ghost invariant = { λ s. is_text (string_bytes s.text) ≡ true };
}

impl Text {
    /// The text, where it keeps the rule.
    pub fn read(alloc: Global, text: &str) -> Result<Option<Text>, AllocError>
        ensures { IfOk result (λ o. o ≡ kept_if is_text text.now) }
    {
        if !letters::is_text_spelled(text, 1, TEXT_LENGTH_LIMIT) {
            return Ok(None);
        }
        let text = String::from_str(alloc, text)?;
        Ok(Some(Text { text }))
    }

    pub fn as_str(&self) -> &str
        ensures value { result.now ≡ self.now }
        ensures text { is_text result.now ≡ true }
    {
        self.text.as_str()
    }

    /// The same text in memory of its own.
    pub fn copy(&self, alloc: Global) -> Result<Text, AllocError>
        ensures { IfOk result (λ t. t ≡ self.now) }
    {
        let text = String::from_str(alloc, self.as_str())?;
        Ok(Text { text })
    }
}

impl PartialEq for Text {
    ghost eq = { λ s t. pointwise nat_eq s t };

    ghost laws = { on_per (λ s. s) (partial_equiv_from_equiv nat_list_eq_equiv) };

    fn eq(&self, other: &Self) -> bool {
        self.as_str() == other.as_str()
    }
}

impl Eq for Text {
    ghost laws = { nat_list_eq_equiv };
}
