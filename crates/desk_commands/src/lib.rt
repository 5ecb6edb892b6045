//! Commands, each a step inside an open change.
#![tactic(auto)]

mod actions;
mod artifacts;
mod attributes;
mod commands;
mod counts;
mod creation;
mod endings;
mod group_views;
mod groups;
mod modules;
mod offering;
mod progress;
mod reports;
mod seen_actions;
mod sets;
mod standing;
mod starting;
mod step;
mod tags;
mod targets;
mod telling;

pub use crate::commands::take_step;
pub use crate::step::Step;
