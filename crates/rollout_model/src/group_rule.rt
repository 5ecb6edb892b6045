//! What a rollout says of one of its groups.

ghost use Rattle.std.specs.Prelude.{◌≡◌, Some, None};

use crate::group_definition::GroupDefinition;
use crate::percentage::Percentage;

/// How a group is cut, and its thresholds.
#[derive(Clone, Copy)]
pub struct GroupRule {
    /// The group takes so many, rounded up, of the members that the groups before it leave. None where groups are even.
    pub percentage: Option<Percentage>,
    /// The next group starts where so many of this one succeeded.
    pub success: Percentage,
    /// The rollout pauses where so many of this group failed.
    pub error: Percentage,
}

impl GroupRule {
    /// The rule of a group that is defined.
    pub fn defined(definition: GroupDefinition) -> GroupRule
        ensures { result ≡ record { percentage = Some definition.percentage; success = definition.success; error = definition.error } }
    {
        GroupRule {
            percentage: Some(definition.percentage),
            success: definition.success,
            error: definition.error,
        }
    }

    /// The rule of an even group, with the thresholds of its rollout.
    pub fn evenly(success: Percentage, error: Percentage) -> GroupRule
        ensures { result ≡ record { percentage = None; success = success; error = error } }
    {
        GroupRule {
            percentage: None,
            success,
            error,
        }
    }
}
