//! The words for the states of rollouts, groups, actions and targets.

ghost use Rattle.std.specs.Prelude.{◌≡◌, ◌&&◌};
ghost use Rattle.std.specs.List.{list_all};
ghost use Rattle.rollout_machine.specs.StateWords.{word_from};
ghost use Rattle.campaign_core.specs.StatusWords.{is_final, group_word_from, action_word_from, target_word_from, FollowsRollout, FollowsGroup};
ghost use Rattle.campaign_core.specs.StatusWords.{FollowsAction, FollowsTarget};

use crate::thresholds;
use rollout_machine::Outcome;
use rollout_model::{ActionWord, Approval, GroupWord, RolloutWord, TargetWord};

/// What a rollout's word rests on, beside its groups.
#[derive(Clone, Copy)]
pub struct RolloutStatus {
    pub approval: Approval,
    pub started: bool,
    pub paused: bool,
}

/// A group with its counts of outcomes and its error threshold, a percentage.
#[derive(Clone, Copy)]
pub struct GroupStatus {
    pub started: bool,
    pub size: u32,
    pub ok: u32,
    pub bad: u32,
    pub gone: u32,
    pub error: u8,
}

/// An action, and whether its group is started.
#[derive(Clone, Copy)]
pub struct ActionStatus {
    pub outcome: Option<Outcome>,
    pub started: bool,
    pub canceling: bool,
}

/// The started actions of a target: whether one is open, and how the one of the greatest number ended.
#[derive(Clone, Copy)]
pub struct TargetStatus {
    pub any_open: bool,
    pub last: Option<Outcome>,
}

/// Whether each action of a group has its outcome.
fn all_final(group: &GroupStatus) -> bool
    ensures { result ≡ is_final group.now }
{
    group.ok as u64 + group.bad as u64 + group.gone as u64 == group.size as u64
}

/// Whether a group is started and each of its actions has its outcome.
fn is_over(group: &GroupStatus) -> bool
    ensures { result ≡ (group.now.started && is_final group.now) }
{
    group.started && all_final(group)
}

/// Whether every group is.
fn are_over(groups: &[GroupStatus]) -> bool
    ensures { result ≡ list_all (λ group. group.started && is_final group) groups.now }
{
    groups.iter().all(|group| is_over(group))
}

/// The first word that applies to a rollout.
fn first_rollout_word(rollout: &RolloutStatus, are_over: bool) -> RolloutWord
    ensures { result ≡ word_from rollout.now.approval rollout.now.started are_over rollout.now.paused }
{
    match rollout.approval {
        Approval::Denied => RolloutWord::ApprovalDenied,
        Approval::Waiting => RolloutWord::WaitingForApproval,
        Approval::Given => {
            if !rollout.started {
                RolloutWord::Ready
            } else if are_over {
                RolloutWord::Finished
            } else if rollout.paused {
                RolloutWord::Paused
            } else {
                RolloutWord::Running
            }
        }
    }
}

/// The first word that applies to a group.
fn first_group_word(rollout_started: bool, group: &GroupStatus) -> GroupWord
    ensures { result ≡ group_word_from rollout_started group.now }
{
    if !rollout_started {
        GroupWord::Ready
    } else if !group.started {
        GroupWord::Scheduled
    } else if all_final(group) {
        GroupWord::Finished
    } else if thresholds::reaches(group.bad as u64, group.size, group.error) {
        GroupWord::Error
    } else {
        GroupWord::Running
    }
}

/// The first word that applies to an action.
fn first_action_word(action: &ActionStatus) -> ActionWord
    ensures { result ≡ action_word_from action.now }
{
    match action.outcome {
        Some(Outcome::Good) => ActionWord::Finished,
        Some(Outcome::Bad) => ActionWord::Error,
        Some(Outcome::Gone) => ActionWord::Canceled,
        None => {
            if !action.started {
                ActionWord::Scheduled
            } else if action.canceling {
                ActionWord::Canceling
            } else {
                ActionWord::Running
            }
        }
    }
}

/// The first word that applies to a target.
fn first_target_word(target: &TargetStatus) -> TargetWord
    ensures { result ≡ target_word_from target.now }
{
    if target.any_open {
        return TargetWord::Pending;
    }
    match target.last {
        Some(Outcome::Good) => TargetWord::InSync,
        Some(Outcome::Bad) => TargetWord::Error,
        Some(Outcome::Gone) | None => TargetWord::Unknown,
    }
}

/// The state of a rollout with these groups. Takes no memory.
pub fn rollout_word(rollout: &RolloutStatus, groups: &[GroupStatus]) -> RolloutWord
    ensures word { result ≡ word_from rollout.now.approval rollout.now.started
        (list_all (λ group. group.started && is_final group) groups.now) rollout.now.paused }
    ensures follows { FollowsRollout rollout.now groups.now result }
{
    first_rollout_word(rollout, are_over(groups))
}

/// The state of a group of a rollout. Takes no memory.
pub fn group_word(rollout_started: bool, group: &GroupStatus) -> GroupWord
    ensures word { result ≡ group_word_from rollout_started group.now }
    ensures follows { FollowsGroup rollout_started group.now result }
{
    first_group_word(rollout_started, group)
}

/// The state of an action. Takes no memory.
pub fn action_word(action: &ActionStatus) -> ActionWord
    ensures word { result ≡ action_word_from action.now }
    ensures follows { FollowsAction action.now result }
{
    first_action_word(action)
}

/// The state of a target. Takes no memory.
pub fn target_word(target: &TargetStatus) -> TargetWord
    ensures word { result ≡ target_word_from target.now }
    ensures follows { FollowsTarget target.now result }
{
    first_target_word(target)
}
