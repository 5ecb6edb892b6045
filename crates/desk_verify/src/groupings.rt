//! How rollouts were cut into groups, by what is said of each of them.

ghost use Rattle.std.specs.Prelude.{◌≡◌, IfOk, length};
ghost use Rattle.desk_store.specs.Blaming.{BlamesGiven};
ghost use Rattle.desk_store.specs.Changing.{FindsTables, StaysIn};
ghost use Rattle.desk_store.specs.RuleTables.{definition_by, definitions_in, grouping_with};
ghost use Rattle.desk_verify.specs.Checking.{ChecksGroups};
ghost use Rattle.desk_verify.specs.GroupChecks.{HaveOnlyRules, IsCutOnlyBy};
ghost use Rattle.desk_verify.specs.private.RolloutChecks.{HasRollout, IsAtRollout};

use crate::rollouts::NumberedRollout;
use desk_store::{Calls, Fault, find_rule};
use rollout_model::{GroupCount, GroupDefinition, GroupDefinitions, GroupRule, Grouping};
use sqlite::Alter;
use std::alloc::{AllocError, Global};

/// How a rollout was cut. Where a group has no rule, or the rules make no grouping, it is `Broken`.
pub(crate) fn read_grouping<S: Alter>(
    calls: &mut Calls<S>,
    rollout: &NumberedRollout,
) -> Result<Grouping, Fault>
    ensures stays { StaysIn S.Store calls.old calls.new result }
    ensures reads { FindsTables S.Store calls.old calls.new result
        (λ t groups. HasRollout t rollout.now.number rollout.now.rollout → IsCutOnlyBy t rollout.now.number groups) }
    ensures blames { BlamesGiven S.Store (IsAtRollout ChecksGroups rollout.now.number rollout.now.rollout) calls.old calls.new result }
{
    let rules = read_rules(calls, rollout)?;
    let Ok(definitions) = definitions_in(calls.alloc(), &rules) else {
        return Err(Fault::Memory);
    };
    match grouping_with(rollout.rollout.plan.groups, definitions) {
        Some(groups) => Ok(groups),
        None => Err(Fault::Broken),
    }
}

/// The rules of all groups of a rollout. Where a group has none, it is `Broken`.
fn read_rules<S: Alter>(
    calls: &mut Calls<S>,
    rollout: &NumberedRollout,
) -> Result<Vec<GroupRule>, Fault>
    ensures stays { StaysIn S.Store calls.old calls.new result }
    ensures count { IfOk result (λ rules. length rules.items ≡ rollout.now.rollout.plan.groups) }
    ensures reads { FindsTables S.Store calls.old calls.new result (λ t rules. HaveOnlyRules t rollout.now.number rules.items) }
    ensures blames { BlamesGiven S.Store (IsAtRollout ChecksGroups rollout.now.number rollout.now.rollout) calls.old calls.new result }
{
    let mut rules = Vec::new(calls.alloc());
    for before in 0..rollout.rollout.plan.groups.get() {
        let Some(rule) = find_rule(calls, rollout.number, before + 1)? else {
            return Err(Fault::Broken);
        };
        rules.push(rule)?;
    }
    Ok(rules)
}

/// So many groups, with definitions of each or of none.
fn grouping_with(count: GroupCount, definitions: Vec<GroupDefinition>) -> Option<Grouping>
    ensures { result ≡ grouping_with count definitions.items }
{
    if definitions.is_empty() {
        return Some(Grouping::evenly(count));
    }
    if definitions.len() != count.get() as usize {
        return None;
    }
    match GroupDefinitions::from_vec(definitions) {
        Some(definitions) => Some(Grouping::defined(definitions)),
        None => None,
    }
}

/// The definitions of the groups that have a percentage.
fn definitions_in(alloc: Global, rules: &[GroupRule]) -> Result<Vec<GroupDefinition>, AllocError>
    ensures { IfOk result (λ definitions. definitions.items ≡ definitions_in rules.now) }
{
    let mut definitions = Vec::new(alloc);
    for rule in rules {
        let Some(definition) = definition_by(rule) else {
            continue;
        };
        definitions.push(definition)?;
    }
    Ok(definitions)
}

fn definition_by(rule: &GroupRule) -> Option<GroupDefinition>
    ensures { result ≡ definition_by rule.now }
{
    match rule.percentage {
        Some(percentage) => Some(GroupDefinition {
            percentage,
            success: rule.success,
            error: rule.error,
        }),
        None => None,
    }
}
