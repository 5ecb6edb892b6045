//! The lines of a feedback.

ghost use Rattle.std.specs.Prelude.{◌≡◌, true, nat_eq, IfOk};
ghost use Rattle.std.specs.Cmp.{on_per, partial_equiv_from_equiv};
ghost use Rattle.std.specs.Cmp.Lexicographic.{pointwise, lists_equiv, nat_list_eq_equiv};
ghost use Rattle.std.specs.List.{list_all};
ghost use Rattle.rollout_model.specs.Rules.{are_details, kept_if, is_detail};

use crate::detail::Detail;
use crate::limits::{DETAIL_LENGTH_LIMIT, DETAIL_LIMIT};
use std::alloc::{AllocError, Global};
use std::marker::Model;

/// The lines that a device adds to one feedback: at most 8.
#[derive(Drop)]
pub struct Details {
    lines: Vec<Detail>,
}

impl Model for Details {
    ghost use Rattle.std.specs.Prelude.{◌≡◌, List, ℕ, true};
    ghost use Rattle.rollout_model.specs.Rules.{are_details};

    ghost Value = { List (List ℕ) };

    ghost view = { λ s. s.lines.items };

    ghost invariant = { λ s. are_details s.lines.items ≡ true };
}

/// Whether the lines keep the rule of lines, as their type promises.
fn keep_their_rule(lines: &[Detail]) -> bool
    ensures { result ≡ list_all is_detail lines.now }
{
    lines
        .iter()
        .all(|line| line.as_str().len() <= DETAIL_LENGTH_LIMIT)
}

impl Details {
    /// The lines, where there are at most 8 of them.
    pub fn from_lines(lines: Vec<Detail>) -> Option<Details>
        ensures { result ≡ kept_if are_details lines.items }
    {
        let are_few = lines.len() <= DETAIL_LIMIT && keep_their_rule(&lines);
        if !are_few {
            return None;
        }
        Some(Details { lines })
    }

    pub fn as_slice(&self) -> &[Detail]
        ensures value { result.now ≡ self.now }
        ensures details { are_details result.now ≡ true }
    {
        self.lines.as_slice()
    }

    /// The same lines in memory of their own.
    pub fn copy(&self, alloc: Global) -> Result<Details, AllocError>
        ensures { IfOk result (λ details. details ≡ self.now) }
    {
        let mut lines = Vec::with_capacity(alloc, self.lines.len())?;
        for line in self.as_slice() {
            lines.push(line.copy(alloc)?)?;
        }
        Ok(Details { lines })
    }
}

impl PartialEq for Details {
    ghost eq = { λ s t. pointwise (pointwise nat_eq) s t };

    ghost laws = { on_per (λ s. s) (partial_equiv_from_equiv (lists_equiv nat_list_eq_equiv)) };

    fn eq(&self, other: &Self) -> bool {
        self.as_slice() == other.as_slice()
    }
}

impl Eq for Details {
    ghost laws = { lists_equiv nat_list_eq_equiv };
}
