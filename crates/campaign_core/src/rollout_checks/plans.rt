//! Creating a rollout.

ghost use Rattle.std.specs.Prelude.{◌≡◌, ◌+◌, ◌<◌, Some, None, MatchResult};
ghost use Rattle.rollout_machine.specs.Commands.{CreateRollout};
ghost use Rattle.campaign_core.specs.RolloutChecks.{approval_at, plan_refusal, Decides};
ghost use Rattle.campaign_core.specs.declared.rollout_checks.RolloutCommandView.TheVariants as seen;

use super::RolloutChange;
use crate::groupings::leaves_empty;
use rollout_model::limits::ROLLOUT_LIMIT;
use rollout_model::{Approval, Grouping, Refusal, RolloutNo, RolloutPlan};

/// What creating a rollout rests on.
#[derive(Clone, Copy)]
pub struct PlanView {
    /// Whether the plan's filter is none.
    pub bad_filter: bool,
    /// Whether its set is not there.
    pub misses_set: bool,
    /// Whether a rollout of the same name is there.
    pub same_name: bool,
    /// How many targets match the filter.
    pub members: u32,
    /// How many rollouts are there.
    pub count: u32,
    /// Whether a new rollout waits for approval.
    pub approval: bool,
}

/// The rollout that is created.
#[derive(Clone, Copy)]
pub struct NewRollout {
    pub number: RolloutNo,
    pub approval: Approval,
}

/// The number after so many rollouts.
fn number_after(count: u32) -> RolloutNo
    requires { count < 2147483647 }
    ensures { result ≡ count + 1 }
{
    RolloutNo::new(count + 1).unwrap()
}

/// The approval of a new rollout.
fn first_approval(approval: bool) -> Approval
    ensures { result ≡ approval_at approval }
{
    if approval {
        Approval::Waiting
    } else {
        Approval::Given
    }
}

/// The rollout that is created in these groups, or the first refusal that applies.
pub fn new_rollout(view: &PlanView, groups: &Grouping) -> Result<NewRollout, Refusal>
    ensures { MatchResult result
        (λ n. (plan_refusal view.now groups.now ≡ None) × (n ≡ record { number = view.now.count + 1; approval = approval_at view.now.approval }))
        (λ refusal. plan_refusal view.now groups.now ≡ Some refusal) }
{
    if view.bad_filter {
        return Err(Refusal::BadFilter);
    }
    if view.misses_set {
        return Err(Refusal::NotFound);
    }
    if view.same_name {
        return Err(Refusal::Exists);
    }
    if leaves_empty(groups, view.members) {
        return Err(Refusal::TooFewTargets);
    }
    if view.count >= ROLLOUT_LIMIT {
        return Err(Refusal::Quota);
    }
    Ok(NewRollout {
        number: number_after(view.count),
        approval: first_approval(view.approval),
    })
}

/// The verdict on the creation of a rollout.
pub fn create(view: &PlanView, plan: &RolloutPlan) -> Result<RolloutChange, Refusal>
    ensures { Decides (seen.Create view.now) (CreateRollout plan.now) result }
{
    let created = new_rollout(view, &plan.groups)?;
    Ok(RolloutChange::Create(created))
}
