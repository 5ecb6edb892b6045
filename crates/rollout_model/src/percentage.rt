//! Percentages of a group.

ghost use Rattle.std.specs.Prelude.{◌≡◌, ◌≤◌, true};
ghost use Rattle.rollout_model.specs.Limits.{limits};
ghost use Rattle.rollout_model.specs.Rules.{is_percentage, kept_if};

use crate::limits::PERCENTAGE_LIMIT;
use std::marker::Model;

/// A threshold of a rollout's groups: a percentage of a group's members, from 1 to 100.
#[derive(Clone, Copy)]
pub struct Percentage {
    percent: u8,
}

impl Model for Percentage {
    ghost use Rattle.std.specs.Prelude.{◌≡◌, ℕ, true};
    ghost use Rattle.rollout_model.specs.Rules.{is_percentage};

    ghost Value = { ℕ };

    ghost view = { λ s. s.percent };

    ghost invariant = { λ s. is_percentage s.percent ≡ true };

    ghost inverse = { λ v. record { percent = v } };
}

impl Percentage {
    /// The percentage, where it is from 1 to 100.
    pub fn new(percent: u8) -> Option<Percentage>
        ensures { result ≡ kept_if is_percentage percent }
    {
        if 1 <= percent && percent <= PERCENTAGE_LIMIT {
            Some(Percentage { percent })
        } else {
            None
        }
    }

    pub fn get(&self) -> u8
        ensures value { result ≡ self.now }
        ensures percentage { is_percentage result ≡ true }
        ensures least { 1 ≤ result }
        ensures greatest { result ≤ limits.percentage }
    {
        self.percent
    }
}
