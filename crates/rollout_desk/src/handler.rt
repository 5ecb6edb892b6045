//! A desk as what answers requests.

ghost use Rattle.std.specs.Prelude.{◌≡◌};

use crate::desk::Desk;
use request_handler::Handler;
use rollout_model::{Reply, Request};
use sqlite::Alter;

/// A law: what a desk that is served counts is what its store counted, the statements, the rows and the failed calls, and no other numbers.
pub fn counts_what_its_store_counts<S: Alter>(desk: &Desk<S>)
    ensures statements { ⟦<Desk<S> as Handler>⟧.statements desk.now ≡ desk.now.store.calls.work.statements }
    ensures rows { ⟦<Desk<S> as Handler>⟧.rows desk.now ≡ desk.now.store.calls.work.rows }
    ensures failures { ⟦<Desk<S> as Handler>⟧.failures desk.now ≡ desk.now.store.calls.failures }
{}

impl<S: Alter> Handler for Desk<S> {
    ghost use Rattle.sqlite.specs.Tree.{Trees};
    ghost use Rattle.std.specs.Prelude.{refl};
    ghost use Rattle.rollout_desk.specs.Counting.{counting};
    ghost use Rattle.rollout_desk.specs.DeskStates.{desk_state};

    // the trees that an open of the file finds
    ghost File = { Trees };

    ghost state = { desk_state S.Store };

    ghost statements = { λ desk. desk.store.calls.work.statements };

    ghost rows = { λ desk. desk.store.calls.work.rows };

    ghost failures = { λ desk. desk.store.calls.failures };

    fn handle(&mut self, request: &Request) -> Reply {
        self.answer(request)
    }

    fn is_stopped(&self) -> bool {
        self.stopped()
    }

    ghost counts = { λ desk s r f. (counting desk s r f, λ h stands. stands, refl, refl, refl) };
}
