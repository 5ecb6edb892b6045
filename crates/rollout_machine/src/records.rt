//! The records of rollouts, as the definitions see them and programs keep them.

use crate::bounds::Bounds;
use crate::outcome::Outcome;
use rollout_model::{Approval, ControllerId, Items, Reported, RolloutNo, RolloutPlan};

/// A group of a rollout, with how many of its actions have which outcome.
#[derive(Clone, Copy)]
pub struct GroupRecord {
    /// From 1 in its rollout.
    pub number: u32,
    pub bounds: Bounds,
    pub started: bool,
    pub ok: u32,
    pub bad: u32,
    pub gone: u32,
}

/// A rollout.
#[derive(Drop)]
pub struct RolloutRecord {
    pub number: RolloutNo,
    pub plan: RolloutPlan,
    /// In byte order of their ids.
    pub members: Items<ControllerId>,
    pub approval: Approval,
    pub started: bool,
    pub paused: bool,
    /// In the order of their numbers.
    pub groups: Items<GroupRecord>,
}

/// An action: what one member of a rollout is to do for it.
#[derive(Drop)]
pub struct ActionRecord {
    pub rollout: RolloutNo,
    /// Of its member, from 1.
    pub position: u32,
    pub canceling: bool,
    pub outcome: Option<Outcome>,
    /// The feedback up to the one that gave the outcome.
    pub history: Items<Reported>,
}
