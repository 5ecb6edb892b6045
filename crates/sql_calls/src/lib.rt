//! What a connection runs, counted, and what it leaves of whatever its database holds. No table is named here.
#![tactic(auto)]

mod calls;
mod fault;

pub use crate::calls::{Calls, Work};
pub use crate::fault::{Fault, broken_of, fault_of};
