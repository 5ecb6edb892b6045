//! Filters as they are asked for.

ghost use Rattle.std.specs.Prelude.{◌≡◌, nat_eq, string_bytes, IfOk};
ghost use Rattle.std.specs.Cmp.{on_per, partial_equiv_from_equiv};
ghost use Rattle.std.specs.Cmp.Lexicographic.{pointwise, nat_list_eq_equiv};

use std::alloc::{AllocError, Global};
use std::marker::Model;

/// The text of a filter over targets, as it was asked for: any text, also one that is no filter.
#[derive(Drop)]
pub struct FilterText {
    text: String,
}

impl Model for FilterText {
    ghost use Rattle.std.specs.Prelude.{List, ℕ, string_bytes};

    ghost Value = { List ℕ };

    ghost view = { λ s. string_bytes s.text };
}

impl FilterText {
    /// The text in memory of its own.
    pub fn from_text(alloc: Global, text: &str) -> Result<FilterText, AllocError>
        ensures { IfOk result (λ filter. filter ≡ text.now) }
    {
        let text = String::from_str(alloc, text)?;
        Ok(FilterText { text })
    }

    pub fn as_str(&self) -> &str
        ensures { result.now ≡ self.now }
    {
        self.text.as_str()
    }

    /// The same text in memory of its own.
    pub fn copy(&self, alloc: Global) -> Result<FilterText, AllocError>
        ensures { IfOk result (λ filter. filter ≡ self.now) }
    {
        FilterText::from_text(alloc, self.as_str())
    }
}

impl PartialEq for FilterText {
    ghost eq = { λ s t. pointwise nat_eq s t };

    ghost laws = { partial_equiv_from_equiv nat_list_eq_equiv };

    fn eq(&self, other: &Self) -> bool {
        self.as_str() == other.as_str()
    }
}

impl Eq for FilterText {
    ghost laws = { nat_list_eq_equiv };
}
