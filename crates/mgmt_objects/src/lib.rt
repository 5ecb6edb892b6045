//! The JSON objects of the management interface: the bodies that it reads and the texts that it writes.
//!
//! A reader accepts exactly the bodies that its definition in `specs/` reads, over what `serde_json` reads of a text, and a
//! writer gives exactly the compact text of its object.
#![tactic(auto)]

mod action_object;
mod artifact_object;
mod body;
mod group_item;
mod grouping_body;
pub mod laws;
mod list;
mod member;
mod module_body;
mod module_object;
mod rollout_body;
mod rollout_object;
mod set_body;
mod set_object;
mod shown;
mod target_body;
mod target_object;
mod threshold;

pub use body::{only_item, read_value};
pub use list::{Item, read_array, read_list};
pub use member::{read_number, read_text, read_whole};
pub use module_body::read_module_body;
pub use rollout_body::read_rollout_body;
pub use set_body::read_set_body;
pub use shown::{Shown, array_text, object_text, page_text, single_text};
pub use target_body::read_targets_body;
pub use target_object::{accepted_text, done_text};
