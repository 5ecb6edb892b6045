//! Whether the tables of a desk agree with what each of them is to have, whatever rows they have.
#![tactic(auto)]

mod actions;
mod artifacts;
mod contents;
mod cuts;
mod damage;
mod finding;
mod groupings;
mod groups;
mod histories;
mod laws;
mod members;
mod offers;
mod places;
mod rollouts;
mod turns;

pub use crate::damage::{CheckedTable, Damage};
pub use crate::finding::find_damage;
pub use crate::laws::{records_agree, records_are_readable};
