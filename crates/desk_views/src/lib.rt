//! What queries show, read inside an open change.
#![tactic(auto)]

mod actions;
mod artifacts;
mod deployments;
mod devices;
mod groups;
mod modules;
mod pages;
mod reports;
mod rollouts;
mod sets;
mod target_pages;
mod target_words;
mod targets;

pub use crate::actions::{show_action, show_actions_table, show_history, show_target_actions};
pub use crate::artifacts::{show_artifact, show_artifacts, show_contents};
pub use crate::deployments::{find_download, show_deployment, show_download};
pub use crate::devices::{show_cancel, show_poll};
pub use crate::groups::{show_group, show_group_targets, show_groups};
pub use crate::modules::{show_module, show_modules};
pub use crate::reports::show_report;
pub use crate::rollouts::{show_rollout, show_rollouts};
pub use crate::sets::{show_set, show_sets};
pub use crate::target_pages::{read_known_page, read_target_ids, show_targets};
pub use crate::targets::show_target;
