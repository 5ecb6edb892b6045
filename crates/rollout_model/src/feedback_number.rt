//! The numbers that devices give their feedback.

ghost use Rattle.std.specs.Prelude.{◌≡◌, ◌≤◌, true};
ghost use Rattle.rollout_model.specs.Limits.{limits};
ghost use Rattle.rollout_model.specs.Rules.{kept_if, is_feedback_number};

use std::marker::Model;

/// The number of a feedback, from 1 to 4,294,967,295. A device gives each new feedback on an action a greater one than those before it, so
/// that what it sends again is known by its number.
#[derive(Clone, Copy)]
pub struct FeedbackNumber {
    number: u32,
}

impl Model for FeedbackNumber {
    ghost use Rattle.std.specs.Prelude.{◌≡◌, ℕ, true};
    ghost use Rattle.rollout_model.specs.Rules.{is_feedback_number};

    ghost Value = { ℕ };

    ghost view = { λ s. s.number };

    ghost invariant = { λ s. is_feedback_number s.number ≡ true };

    ghost inverse = { λ v. record { number = v } };
}

impl FeedbackNumber {
    /// The number, where it isn't 0.
    pub fn new(number: u32) -> Option<FeedbackNumber>
        ensures { result ≡ kept_if is_feedback_number number }
    {
        if number == 0 {
            return None;
        }
        Some(FeedbackNumber { number })
    }

    pub fn get(&self) -> u32
        ensures value { result ≡ self.now }
        ensures number { is_feedback_number result ≡ true }
        ensures least { 1 ≤ result }
        ensures greatest { result ≤ limits.feedback_number }
    {
        self.number
    }
}
