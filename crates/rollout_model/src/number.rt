//! Typed numbers.

ghost use Rattle.std.specs.Prelude.{◌≡◌, ◌≤◌, true};
ghost use Rattle.rollout_model.specs.Limits.{limits};
ghost use Rattle.rollout_model.specs.Rules.{is_number, kept_if};

use crate::limits::NUMBER_LIMIT;
use std::marker::{Model, PhantomData};

/// A number from 1 to 2,147,483,647, of a kind: one kind's can't be passed for another's.
#[derive(Clone, Copy, PartialEq, Eq)]
pub struct Number<Kind> {
    // in front, so that two numbers compare as what they hold: a derived comparison goes from field to field
    kind: PhantomData<Kind>,
    number: u32,
}

impl<Kind> Model for Number<Kind> {
    ghost use Rattle.std.specs.Prelude.{◌≡◌, ℕ, true};
    ghost use Rattle.rollout_model.specs.Rules.{is_number};

    ghost Value = { ℕ };

    ghost view = { λ s. s.number };

    ghost invariant = { λ s. is_number s.number ≡ true };

    ghost inverse = { λ v. record { number = v; kind = record {} } };
}

impl<Kind> Number<Kind> {
    /// The number, where it is in its range.
    pub fn new(number: u32) -> Option<Self>
        ensures { result ≡ kept_if is_number number }
    {
        if 1 <= number && number <= NUMBER_LIMIT {
            Some(Number {
                kind: PhantomData,
                number,
            })
        } else {
            None
        }
    }

    pub fn get(&self) -> u32
        ensures value { result ≡ self.now }
        ensures number { is_number result ≡ true }
        ensures least { 1 ≤ result }
        ensures greatest { result ≤ limits.number }
    {
        self.number
    }
}

/// What is numbered by a `ModuleNo`.
#[derive(Clone, Copy, PartialEq, Eq)]
pub struct ModuleKind;

/// What is numbered by an `ArtifactNo`.
#[derive(Clone, Copy, PartialEq, Eq)]
pub struct ArtifactKind;

/// What is numbered by a `SetNo`.
#[derive(Clone, Copy, PartialEq, Eq)]
pub struct SetKind;

/// What is numbered by a `RolloutNo`.
#[derive(Clone, Copy, PartialEq, Eq)]
pub struct RolloutKind;

/// What is numbered by an `ActionNo`.
#[derive(Clone, Copy, PartialEq, Eq)]
pub struct ActionKind;

/// The number of a module: the k-th module that was added has number k.
pub type ModuleNo = Number<ModuleKind>;

/// The number of an artifact: the k-th artifact that was added, to whatever module, has number k.
pub type ArtifactNo = Number<ArtifactKind>;

/// The number of a distribution set: the k-th set that was added has number k.
pub type SetNo = Number<SetKind>;

/// The number of a rollout: the k-th rollout that was created has number k.
pub type RolloutNo = Number<RolloutKind>;

/// The number of an action: the start of a rollout numbers its members' actions on from the last.
pub type ActionNo = Number<ActionKind>;
