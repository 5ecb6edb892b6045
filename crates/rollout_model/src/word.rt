//! Tags, the keys of attributes, and the ids of targets.

ghost use Rattle.std.specs.Prelude.{◌≡◌, true, refl, nat_eq, Some};
ghost use Rattle.std.specs.Ordering.{nat_cmp};
ghost use Rattle.std.specs.Cmp.{on_per, partial_equiv_from_equiv};
ghost use Rattle.std.specs.Cmp.Lexicographic.{pointwise, slice_cmp, nat_list_eq_equiv, nat_list_cmp_total, texts_po, texts_ties};
ghost use Rattle.rollout_model.specs.Rules.{is_word, kept_if};

use crate::inline_bytes::InlineBytes;
use crate::letters;
use crate::limits::WORD_LENGTH_LIMIT;
use std::cmp::Ordering;
use std::marker::{Model, PhantomData};
use std::str;

/// A tag or the key of an attribute.
#[derive(Clone, Copy)]
pub struct LabelKind;

/// What is named by a `ControllerId`.
#[derive(Clone, Copy)]
pub struct TargetKind;

/// A word of a kind: 1 to 64 bytes of `A-Z a-z 0-9 . _ -`. Words stand in byte order.
#[derive(Clone, Copy)]
pub struct Word<Kind = LabelKind> {
    letters: InlineBytes<WORD_LENGTH_LIMIT>,
    kind: PhantomData<Kind>,
}

/// The id of a target.
pub type ControllerId = Word<TargetKind>;

impl<Kind> Model for Word<Kind> {
    ghost use Rattle.std.specs.Prelude.{◌≡◌, List, ℕ, true};
    ghost use Rattle.rollout_model.specs.Rules.{is_word};

    ghost Value = { List ℕ };

    ghost view = { λ s. s.letters };

    ghost invariant = { λ s. is_word s.letters ≡ true };

    ghost inverse = { λ v. record { letters = v; kind = record {} } };
}

impl<Kind> Word<Kind> {
    /// The text, where it is a word. Takes no memory.
    pub fn read(text: &str) -> Option<Self>
        ensures { result ≡ kept_if is_word text.now }
    {
        if !letters::is_word_spelled(text.as_bytes(), 1, WORD_LENGTH_LIMIT) {
            return None;
        }
        Some(Word {
            letters: InlineBytes::of(text.as_bytes()),
            kind: PhantomData,
        })
    }

    pub fn as_bytes(&self) -> &[u8]
        ensures value { result.now ≡ self.now }
        ensures word { is_word result.now ≡ true }
    {
        self.letters.as_slice()
    }

    pub fn as_str(&self) -> &str
        ensures value { result.now ≡ self.now }
        ensures word { is_word result.now ≡ true }
    {
        str::from_utf8(self.as_bytes()).unwrap()
    }
}

impl<Kind> PartialEq for Word<Kind> {
    ghost eq = { λ s t. pointwise nat_eq s t };

    ghost laws = { on_per (λ s. s) (partial_equiv_from_equiv nat_list_eq_equiv) };

    fn eq(&self, other: &Self) -> bool {
        self.as_bytes() == other.as_bytes()
    }
}

impl<Kind> Eq for Word<Kind> {
    ghost laws = { nat_list_eq_equiv };
}

impl<Kind> PartialOrd for Word<Kind> {
    ghost partial_cmp = { λ s t. Some (slice_cmp nat_cmp s t) };

    ghost laws = { texts_po };

    fn partial_cmp(&self, other: &Self) -> Option<Ordering> {
        Some(self.cmp(other))
    }
}

impl<Kind> Ord for Word<Kind> {
    ghost cmp = { λ s t. slice_cmp nat_cmp s t };

    ghost total = { nat_list_cmp_total };

    ghost matches_partial_cmp = { λ s t. refl };

    ghost matches_eq = { λ s t. texts_ties s t };

    fn cmp(&self, other: &Self) -> Ordering {
        self.as_bytes().cmp(other.as_bytes())
    }
}
