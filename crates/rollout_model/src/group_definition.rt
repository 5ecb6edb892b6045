//! Definitions of a rollout's groups.

ghost use Rattle.std.specs.Prelude.{◌≡◌, true, IfOk};
ghost use Rattle.std.specs.List.{list_all};
ghost use Rattle.rollout_model.specs.Groupings.{are_definitions, ends_whole, is_definition};
ghost use Rattle.rollout_model.specs.Rules.{kept_if};

use crate::limits::GROUP_LIMIT;
use crate::percentage::Percentage;
use std::alloc::{AllocError, Global};
use std::marker::Model;

/// What a rollout says of one of its groups.
#[derive(Clone, Copy)]
pub struct GroupDefinition {
    /// The group takes so many, rounded up, of the members that the groups before it leave.
    pub percentage: Percentage,
    /// The next group starts where so many of this one succeeded.
    pub success: Percentage,
    /// The rollout pauses where so many of this group failed.
    pub error: Percentage,
}

/// The definitions of all groups of a rollout, in their order: 1 to 50, of which the last is of 100 percent, so that no member is
/// left out.
#[derive(Drop)]
pub struct GroupDefinitions {
    definitions: Vec<GroupDefinition>,
}

impl Model for GroupDefinitions {
    ghost use Rattle.std.specs.Prelude.{◌≡◌, List, true};
    ghost use Rattle.rollout_model.specs.Groupings.{are_definitions};
    ghost use Rattle.rollout_model.specs.declared.group_definition.GroupDefinition.{GroupDefinition};

    ghost Value = { List GroupDefinition };

    ghost view = { λ s. s.definitions.items };

    ghost invariant = { λ s. are_definitions s.definitions.items ≡ true };
}

/// Whether the definitions keep the rules of percentages, as their types promise.
fn keep_their_rules(definitions: &[GroupDefinition]) -> bool
    ensures { result ≡ list_all is_definition definitions.now }
{
    definitions.iter().all(|definition| {
        definition.percentage.get() >= 1
            && definition.success.get() >= 1
            && definition.error.get() >= 1
    })
}

/// Whether the last definition is of 100 percent.
fn end_whole(definitions: &[GroupDefinition]) -> bool
    ensures { result ≡ ends_whole definitions.now }
{
    match definitions {
        [] => false,
        [last] => last.percentage.get() == 100,
        [_, rest @ ..] => end_whole(rest),
    }
}

impl GroupDefinitions {
    /// The definitions, where there are 1 to 50 of them and the last is of 100 percent.
    pub fn from_vec(definitions: Vec<GroupDefinition>) -> Option<GroupDefinitions>
        ensures { result ≡ kept_if are_definitions definitions.items }
    {
        let count = definitions.len();
        let are_whole = 1 <= count
            && count <= GROUP_LIMIT as usize
            && keep_their_rules(&definitions)
            && end_whole(&definitions);
        if !are_whole {
            return None;
        }
        Some(GroupDefinitions { definitions })
    }

    pub fn as_slice(&self) -> &[GroupDefinition]
        ensures value { result.now ≡ self.now }
        ensures definitions { are_definitions result.now ≡ true }
    {
        self.definitions.as_slice()
    }

    /// The same definitions in memory of their own.
    pub fn copy(&self, alloc: Global) -> Result<GroupDefinitions, AllocError>
        ensures { IfOk result (λ definitions. definitions ≡ self.now) }
    {
        let definitions = Vec::from_slice(alloc, self.as_slice())?;
        Ok(GroupDefinitions { definitions })
    }
}
