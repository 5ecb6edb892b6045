//! Rollouts, groups and actions as they are shown.

use crate::action_word::ActionWord;
use crate::artifact::Artifact;
use crate::feedback::Reported;
use crate::filter_text::FilterText;
use crate::group_word::GroupWord;
use crate::module::ModuleLabel;
use crate::number::{ActionNo, ModuleNo, RolloutNo, SetNo};
use crate::rollout_word::RolloutWord;
use crate::text::Text;
use crate::word::ControllerId;

/// A rollout as it is shown.
#[derive(Drop)]
pub struct Rollout {
    pub number: RolloutNo,
    pub name: Text,
    pub set_number: SetNo,
    pub filter_text: FilterText,
    pub word: RolloutWord,
    /// How many groups it has.
    pub groups: u32,
    /// How many members it has.
    pub targets: u32,
}

/// A group of a rollout as it is shown, with how many of its actions have which outcome.
#[derive(Clone, Copy)]
pub struct Group {
    /// From 1 in its rollout.
    pub number: u32,
    /// How many members it has.
    pub size: u32,
    /// How many of them installed the set.
    pub ok: u32,
    /// How many failed.
    pub bad: u32,
    /// How many were canceled.
    pub gone: u32,
    /// The next group starts where so many per cent of this one succeeded.
    pub success: u8,
    /// The rollout pauses where so many per cent of this group failed.
    pub error: u8,
    pub word: GroupWord,
}

/// An action, what one target is to do for one rollout, as it is shown.
#[derive(Clone, Copy)]
pub struct Action {
    pub number: ActionNo,
    pub rollout: RolloutNo,
    /// The number of its group.
    pub group: u32,
    pub target: ControllerId,
    pub word: ActionWord,
}

/// An entry of an action's history, with its number in there, from 1.
#[derive(Drop)]
pub struct NumberedEntry {
    pub number: u32,
    pub reported: Reported,
}

/// What a device is offered: an action, or that it be canceled.
#[derive(Clone, Copy)]
pub struct Offer {
    pub action: ActionNo,
    pub canceling: bool,
}

/// A module of a deployment with its artifacts.
#[derive(Drop)]
pub struct Chunk {
    pub module_number: ModuleNo,
    pub label: ModuleLabel,
    /// In the order of their numbers.
    pub artifacts: Vec<Artifact>,
}

/// What a target is to install, by which action.
#[derive(Drop)]
pub struct Deployment {
    pub target: ControllerId,
    pub action: ActionNo,
    /// In the order of the distribution set.
    pub chunks: Vec<Chunk>,
}

/// A rollout with all its groups.
#[derive(Drop)]
pub struct RolloutReport {
    pub rollout: Rollout,
    /// In the order of their numbers.
    pub groups: Vec<Group>,
}
