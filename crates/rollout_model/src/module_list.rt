//! The modules of a distribution set.

ghost use Rattle.std.specs.Prelude.{◌≡◌, true, nat_eq, IfOk};
ghost use Rattle.std.specs.Cmp.{on_per, partial_equiv_from_equiv};
ghost use Rattle.std.specs.Cmp.Lexicographic.{pointwise, nat_list_eq_equiv};
ghost use Rattle.std.specs.List.{list_all, list_any};
ghost use Rattle.rollout_model.specs.Rules.{are_distinct_numbers, is_module_list, is_number, kept_if};

use crate::limits::SET_MODULE_LIMIT;
use crate::number::ModuleNo;
use std::alloc::{AllocError, Global};
use std::marker::Model;

/// The modules of a distribution set in their order: 1 to 8 numbers, none of them twice.
#[derive(Drop)]
pub struct ModuleList {
    numbers: Vec<ModuleNo>,
}

impl Model for ModuleList {
    ghost use Rattle.std.specs.Prelude.{◌≡◌, List, ℕ, true};
    ghost use Rattle.rollout_model.specs.Rules.{is_module_list};

    ghost Value = { List ℕ };

    ghost view = { λ s. s.numbers.items };

    ghost invariant = { λ s. is_module_list s.numbers.items ≡ true };
}

/// Whether the numbers keep the rule of numbers, as their type promises.
fn are_numbers(numbers: &[ModuleNo]) -> bool
    ensures { result ≡ list_all is_number numbers.now }
{
    numbers.iter().all(|number| number.get() >= 1)
}

/// Whether no number stands twice.
fn are_distinct(numbers: &[ModuleNo]) -> bool
    ensures { result ≡ are_distinct_numbers numbers.now }
{
    match numbers {
        [] => true,
        [first, rest @ ..] => !rest.contains(first) && are_distinct(rest),
    }
}

impl ModuleList {
    /// The numbers, where there are 1 to 8 of them and none stands twice.
    pub fn from_numbers(numbers: Vec<ModuleNo>) -> Option<ModuleList>
        ensures { result ≡ kept_if is_module_list numbers.items }
    {
        let count = numbers.len();
        let is_list = 1 <= count
            && count <= SET_MODULE_LIMIT
            && are_numbers(&numbers)
            && are_distinct(&numbers);
        if !is_list {
            return None;
        }
        Some(ModuleList { numbers })
    }

    pub fn as_slice(&self) -> &[ModuleNo]
        ensures value { result.now ≡ self.now }
        ensures list { is_module_list result.now ≡ true }
    {
        self.numbers.as_slice()
    }

    /// The same list in memory of its own.
    pub fn copy(&self, alloc: Global) -> Result<ModuleList, AllocError>
        ensures { IfOk result (λ list. list ≡ self.now) }
    {
        let numbers = Vec::from_slice(alloc, self.as_slice())?;
        Ok(ModuleList { numbers })
    }
}

impl PartialEq for ModuleList {
    ghost eq = { λ s t. pointwise nat_eq s t };

    ghost laws = { on_per (λ s. s) (partial_equiv_from_equiv nat_list_eq_equiv) };

    fn eq(&self, other: &Self) -> bool {
        self.as_slice() == other.as_slice()
    }
}

impl Eq for ModuleList {
    ghost laws = { nat_list_eq_equiv };
}
