//! The tags of a target.

ghost use Rattle.std.specs.Prelude.{◌≡◌, true, nat_eq, IfOk};
ghost use Rattle.std.specs.Cmp.{on_per, partial_equiv_from_equiv};
ghost use Rattle.std.specs.Cmp.Lexicographic.{pointwise, lists_equiv, nat_list_eq_equiv};
ghost use Rattle.std.specs.List.{list_all};
ghost use Rattle.rollout_model.specs.Rules.{are_distinct_words, is_tag_list, is_word, kept_if};

use crate::limits::TAG_LIMIT;
use crate::word::Word;
use std::alloc::{AllocError, Global};
use std::marker::Model;

/// The tags of a target: at most 16 words, none of them twice.
#[derive(Drop)]
pub struct Tags {
    words: Vec<Word>,
}

impl Model for Tags {
    ghost use Rattle.std.specs.Prelude.{◌≡◌, List, ℕ, true};
    ghost use Rattle.rollout_model.specs.Rules.{is_tag_list};

    ghost Value = { List (List ℕ) };

    ghost view = { λ s. s.words.items };

    ghost invariant = { λ s. is_tag_list s.words.items ≡ true };
}

/// Whether the words keep the rule of words, as their type promises.
fn are_words(words: &[Word]) -> bool
    ensures { result ≡ list_all is_word words.now }
{
    words.iter().all(|word| !word.as_bytes().is_empty())
}

/// Whether no word stands twice.
fn are_distinct(words: &[Word]) -> bool
    ensures { result ≡ are_distinct_words words.now }
{
    match words {
        [] => true,
        [first, rest @ ..] => !rest.contains(first) && are_distinct(rest),
    }
}

impl Tags {
    /// The words, where there are at most 16 of them and none stands twice.
    pub fn from_words(words: Vec<Word>) -> Option<Tags>
        ensures { result ≡ kept_if is_tag_list words.items }
    {
        let is_list = words.len() <= TAG_LIMIT && are_words(&words) && are_distinct(&words);
        if !is_list {
            return None;
        }
        Some(Tags { words })
    }

    pub fn as_slice(&self) -> &[Word]
        ensures value { result.now ≡ self.now }
        ensures list { is_tag_list result.now ≡ true }
    {
        self.words.as_slice()
    }

    /// The same tags in memory of their own.
    pub fn copy(&self, alloc: Global) -> Result<Tags, AllocError>
        ensures { IfOk result (λ tags. tags ≡ self.now) }
    {
        let words = Vec::from_slice(alloc, self.as_slice())?;
        Ok(Tags { words })
    }
}

impl PartialEq for Tags {
    ghost eq = { λ s t. pointwise (pointwise nat_eq) s t };

    ghost laws = { on_per (λ s. s) (partial_equiv_from_equiv (lists_equiv nat_list_eq_equiv)) };

    fn eq(&self, other: &Self) -> bool {
        self.as_slice() == other.as_slice()
    }
}

impl Eq for Tags {
    ghost laws = { lists_equiv nat_list_eq_equiv };
}
