//! The definitions of a staged firmware rollout: what a desk answers, said over nothing but the list of the commands that it
//! accepted, the records that such a list amounts to, and the laws that tie the two. All stand in `specs/`; the functions here
//! state the laws, so that the check proves them, and the types are those that the definitions share with the code above.
#![tactic(auto)]

mod bounds;
pub mod laws;
mod outcome;
mod records;
mod said;
mod standing;
mod store_failure;
mod view;
mod well_formed;

pub use bounds::Bounds;
pub use outcome::{Outcome, is_outcome};
pub use records::{ActionRecord, GroupRecord, RolloutRecord};
pub use said::{outcome_of_cancel, outcome_of_deployment, outcome_said, says_note};
pub use standing::Standing;
pub use store_failure::{is_failed_store, says_store_failed};
pub use view::{Effects, GroupView, RolloutView};
pub use well_formed::{
    cancel_is_well_formed, command_is_well_formed, feedback_is_well_formed, number_is_well_formed,
};
