//! The command line: the order that its words name, and which desk the order is for.
#![tactic(auto)]

mod named_desk;
mod order;

pub use crate::order::{Order, Setup, read_order};
