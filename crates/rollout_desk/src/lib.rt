//! A desk: the records of a rollout server in one database, one transaction a command.
#![tactic(auto)]

mod change;
mod contents;
mod desk;
mod download;
mod handler;
mod knowing;
mod laws;
mod look;
mod opening;
mod refusals;
mod run;
mod verify;

pub use crate::desk::Desk;
pub use crate::download::downloads_go_on;
pub use crate::handler::counts_what_its_store_counts;
pub use crate::laws::records_can_be_migrated;
pub use crate::opening::goes_on_after_crash;
pub use desk_opening::OpenFault;
pub use desk_verify::{CheckedTable, Damage};
pub use request_handler::Download;
