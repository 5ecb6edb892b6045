//! How many groups a rollout has.

ghost use Rattle.std.specs.Prelude.{◌≡◌, ◌≤◌, true};
ghost use Rattle.rollout_model.specs.Limits.{limits};
ghost use Rattle.rollout_model.specs.Rules.{is_group_count, kept_if};

use crate::limits::GROUP_LIMIT;
use std::marker::Model;

/// How many groups a rollout is cut into, from 1 to 50.
#[derive(Clone, Copy)]
pub struct GroupCount {
    count: u32,
}

impl Model for GroupCount {
    ghost use Rattle.std.specs.Prelude.{◌≡◌, ℕ, true};
    ghost use Rattle.rollout_model.specs.Rules.{is_group_count};

    ghost Value = { ℕ };

    ghost view = { λ s. s.count };

    ghost invariant = { λ s. is_group_count s.count ≡ true };

    ghost inverse = { λ v. record { count = v } };
}

impl GroupCount {
    /// The count, where it is from 1 to 50.
    pub fn new(count: u32) -> Option<GroupCount>
        ensures { result ≡ kept_if is_group_count count }
    {
        if 1 <= count && count <= GROUP_LIMIT {
            Some(GroupCount { count })
        } else {
            None
        }
    }

    pub fn get(&self) -> u32
        ensures value { result ≡ self.now }
        ensures count { is_group_count result ≡ true }
        ensures least { 1 ≤ result }
        ensures greatest { result ≤ limits.groups }
    {
        self.count
    }
}
