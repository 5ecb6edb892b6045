//! The rows of the numbers that devices give entries of histories.

use rollout_model::FeedbackNumber;

/// The number of an entry, with the entry's place in the sequence of its action's history.
#[derive(Clone, Copy)]
pub struct PlacedNumber {
    pub sequence: u32,
    pub number: FeedbackNumber,
}

/// The last number of an action, with its place among those of the action, from 1.
#[derive(Clone, Copy)]
pub struct LastNumber {
    pub place: u32,
    pub it: PlacedNumber,
}
