//! What rollouts are created from.

ghost use Rattle.std.specs.Prelude.{◌≡◌, IfOk};
ghost use Rattle.rollout_model.specs.PlanRules.{rule_at};

use crate::filter_text::FilterText;
use crate::group_rule::GroupRule;
use crate::grouping::Grouping;
use crate::number::SetNo;
use crate::percentage::Percentage;
use crate::text::Text;
use std::alloc::{AllocError, Global};

/// What a rollout is created from: no two rollouts have the same name.
#[derive(Drop)]
pub struct RolloutPlan {
    pub name: Text,
    /// The distribution set that its members are to install.
    pub set_number: SetNo,
    /// Its members are the targets that match now.
    pub filter_text: FilterText,
    pub groups: Grouping,
    /// The next group starts where so many of the last one succeeded, if that one's definition says nothing else.
    pub success: Percentage,
    /// The rollout pauses where so many of one group failed, if its definition says nothing else.
    pub error: Percentage,
}

impl RolloutPlan {
    /// The same plan in memory of its own.
    pub fn copy(&self, alloc: Global) -> Result<RolloutPlan, AllocError>
        ensures { IfOk result (λ plan. plan ≡ self.now) }
    {
        let name = self.name.copy(alloc)?;
        let filter_text = self.filter_text.copy(alloc)?;
        let groups = self.groups.copy(alloc)?;
        Ok(RolloutPlan {
            name,
            set_number: self.set_number,
            filter_text,
            groups,
            success: self.success,
            error: self.error,
        })
    }
    /// The rule of a group, counted from 1: its definition's, where it has one. Else, also of a group that isn't there, no percentage
    /// and the plan's own thresholds.
    pub fn group_rule(&self, number: u32) -> GroupRule
        ensures { result ≡ rule_at self.now number }
    {
        match self.groups.definition(number) {
            Some(definition) => GroupRule::defined(definition),
            None => GroupRule::evenly(self.success, self.error),
        }
    }
}
