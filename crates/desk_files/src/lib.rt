//! The files of the desk: the import of targets, the report of a rollout and the table of its actions.
#![tactic(auto)]

mod actions_table;
mod columns;
mod counts;
mod fields;
mod import;
mod import_fault;
mod imported_rows;
pub mod laws;
mod record_reader;
mod report;
mod tags_field;
mod target_record;

pub use actions_table::actions_csv;
pub use import::read_targets;
pub use import_fault::ImportFault;
pub use report::rollout_report;
