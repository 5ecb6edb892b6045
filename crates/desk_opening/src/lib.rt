//! How a connection's database becomes a desk: a new one is made, or the one that is there is taken over.
#![tactic(auto)]

mod desk_table;
mod filling;
mod making;
mod migrating;
mod opening;
mod path;
mod reopening;
mod version_tables;

pub use crate::opening::{OpenFault, open_desk};
pub use crate::path::{NoFile, PathLeftover, open_at};
pub use crate::reopening::{DeskLeftover, reopen_files, reopen_path};
