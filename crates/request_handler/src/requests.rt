//! A desk, seen from the loop that hands it requests.

use rollout_model::{Reply, Request};

/// A desk that answers requests, seen by the list of commands that it stands for and by what a crash may leave of it.
pub trait Handler {
    ghost use Rattle.std.specs.Prelude.{◌≡◌, ◌≢◌, ◌≤◌, ◌-◌, true, ℕ};
    ghost use Rattle.rollout_model.specs.declared.refusal.Refusal.TheVariants as refusal;
    ghost use Rattle.rollout_machine.specs.Bounds.{KeepsBound};
    ghost use Rattle.rollout_machine.specs.Requests.{Asks, Do};
    ghost use Rattle.rollout_machine.specs.Replies.{Refused};
    ghost use Rattle.rollout_machine.specs.Views.{request_of, reply_of};
    ghost use Rattle.rollout_machine.specs.Standing.{DeskState, Applies, StaysStopped};
    ghost use Rattle.request_handler.specs.Failures.{HasCause, MayCount};

    /// What a crash leaves.
    ghost File: { Type 0 };

    ghost state: { Self → DeskState File };

    /// How many statements were run so far, and how many rows they gave: no request sets a count back.
    ghost statements: { Self → ℕ };

    ghost rows: { Self → ℕ };

    /// How many calls of its database failed so far.
    ghost failures: { Self → ℕ };

    /// Answers one request. A command is committed, or surely not, before it returns.
    fn handle(&mut self, request: &Request) -> Reply
        ensures clean { (state self.new).is_clean → (state self.old).is_clean }
        ensures applies { Applies (state self.old) (state self.new) (Asks (request_of request.now)) (reply_of result) }
        ensures stops { reply_of result ≡ Refused refusal.StoreFailed → (state self.new).is_stopped ≡ true }
        ensures fails { reply_of result ≡ Refused refusal.StoreFailed → HasCause (state self.old) (state self.new) (failures self.old) (failures self.new) }
        ensures tells { reply_of result ≢ Refused refusal.StoreFailed → failures self.new ≡ failures self.old }
        ensures stopped { (state self.old).is_stopped ≡ true → (reply_of result ≡ Refused refusal.Stopped) × StaysStopped (state self.old) (state self.new) }
        ensures grows { (statements self.old ≤ statements self.new) × (rows self.old ≤ rows self.new) }
        ensures bound { (c : _) → request_of request.now ≡ Do c
            → KeepsBound c (statements self.new - statements self.old) (rows self.new - rows self.old) };

    /// Whether the desk refuses everything until it is reopened.
    fn is_stopped(&self) -> bool
        ensures { result ≡ (state self.now).is_stopped };

    /// A law: none of the three counts is a constant, whatever a desk stands for.
    ghost counts: { MayCount state statements rows failures };
}
