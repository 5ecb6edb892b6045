//! Tables of ours in a database that may have tables of others: where they stand in its schema, and what texts mean there.
#![tactic(auto)]

mod comparison;
mod standing;

pub use crate::comparison::same_table;
pub use crate::standing::{stands, uses_name};
