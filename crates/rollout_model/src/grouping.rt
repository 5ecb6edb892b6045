//! How a rollout is cut into groups.

ghost use Rattle.std.specs.Prelude.{◌≡◌, true, IfOk};
ghost use Rattle.rollout_model.specs.Groupings.{defined, define_each, evenly};
ghost use Rattle.rollout_model.specs.Rules.{is_group_count, item_numbered};

use crate::group_count::GroupCount;
use crate::group_definition::{GroupDefinition, GroupDefinitions};
use std::alloc::{AllocError, Global};
use std::marker::Model;

/// How a rollout is cut: into so many even groups, or into a group for each of its definitions.
#[derive(Drop)]
pub struct Grouping {
    count: GroupCount,
    /// None where the groups are even.
    definitions: Option<GroupDefinitions>,
}

impl Model for Grouping {
    ghost use Rattle.std.specs.Prelude.{◌≡◌, true};
    ghost use Rattle.rollout_model.specs.Groupings.{Grouping, given_definitions, is_grouping};

    ghost Value = { Grouping };

    ghost view = { λ s. record { count = s.count; definitions = given_definitions s.definitions } };

    ghost invariant = { λ s. is_grouping (record { count = s.count; definitions = given_definitions s.definitions }) ≡ true };
}

impl Grouping {
    /// So many groups, of which no two sizes differ by more than one.
    pub fn evenly(count: GroupCount) -> Grouping
        ensures { result ≡ evenly count }
    {
        let _count = count.get();
        Grouping {
            count,
            definitions: None,
        }
    }

    /// A group for each definition.
    pub fn defined(definitions: GroupDefinitions) -> Grouping
        ensures { result ≡ defined definitions }
    {
        let count = GroupCount::new(definitions.as_slice().len() as u32).unwrap();
        Grouping {
            count,
            definitions: Some(definitions),
        }
    }

    /// How many groups there are.
    pub fn count(&self) -> GroupCount
        ensures value { result ≡ self.now.count }
        ensures count { is_group_count result ≡ true }
    {
        self.count
    }

    /// The definitions of all groups, or none where the groups are even.
    pub fn definitions(&self) -> &[GroupDefinition]
        ensures value { result.now ≡ self.now.definitions }
        ensures definitions { define_each result.now self.now.count ≡ true }
    {
        match &self.definitions {
            Some(definitions) => definitions.as_slice(),
            None => &[],
        }
    }

    /// The definition of a group, counted from 1, where there is one.
    pub fn definition(&self, number: u32) -> Option<GroupDefinition>
        ensures { result ≡ item_numbered self.now.definitions number }
    {
        if number == 0 {
            return None;
        }
        self.definitions().get(number as usize - 1).copied()
    }

    /// The same grouping in memory of its own.
    pub fn copy(&self, alloc: Global) -> Result<Grouping, AllocError>
        ensures { IfOk result (λ grouping. grouping ≡ self.now) }
    {
        let definitions = match &self.definitions {
            Some(definitions) => Some(definitions.copy(alloc)?),
            None => None,
        };
        Ok(Grouping {
            count: self.count,
            definitions,
        })
    }
}
