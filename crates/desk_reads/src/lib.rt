//! What queries and commands both read inside an open change.
#![tactic(auto)]

mod candidates;
mod devices;
mod matching;
mod rollouts;
mod targets;

pub use crate::devices::knows_device;
pub use crate::matching::read_matching;
pub use crate::rollouts::{SeenRollout, read_seen_rollout, size_of};
pub use crate::targets::{read_all_listed, read_listed};
