//! The rules of a staged rollout as functions: the verdict on a command, how members are cut into groups, when a group has
//! success or error, what an outcome, a resume and a trigger do to a rollout, and the words for the states.
#![tactic(auto)]

mod checks;
mod effects;
mod groupings;
mod groups;
mod own_group;
mod rollout_checks;
mod splits;
mod status_words;
mod thresholds;

pub use checks::{
    ArtifactView, AttributesView, Change, ImportView, ModuleView, NewArtifact, NewModule, NewSet,
    SetView, TagView, UntagView, View, add_artifact, add_module, add_set, check, put_attributes,
    put_targets, tag, untag,
};
pub use effects::{after_resume, after_trigger};
pub use groupings::{cut_grouping, leaves_empty};
pub use groups::{cut_groups, group_bounds};
pub use own_group::{Following, OwnView, after_feedback, own_group_decides};
pub use rollout_checks::{
    ActionChange, ActionView, CancelView, DeviceAction, Ending, FeedbackView, NewRollout, PlanView,
    ResumeView, RolloutChange, RolloutCommandView, StandingView, TriggerView, approve, cancel,
    cancel_feedback, create, deny, feedback, new_rollout, own_action, pause, resume, start,
    trigger,
};
pub use splits::{SplitFault, split_bounds, split_groups};
pub use status_words::{
    ActionStatus, GroupStatus, RolloutStatus, TargetStatus, action_word, group_word, rollout_word,
    target_word,
};
pub use thresholds::{error_begins, success_holds};
