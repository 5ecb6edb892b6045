//! A change that is under way.

ghost use Rattle.std.specs.Prelude.{◌≡◌, IfErr};
ghost use Rattle.sqlite.specs.Held.{state};
ghost use Rattle.sql_calls.specs.Calls.{Grows, errors_in, fails, failures_in};
ghost use Rattle.sql_calls.specs.Standing.{Commits, GivesUp};
ghost use Rattle.desk_records.specs.Holds.{HoldsLedger};

use crate::reading::finished;
use crate::store::DeskStore;
use sql_calls::{Calls, Fault};
use sqlite::Alter;

/// A change that is under way. It has to be spent by `commit` or `give_up`, and after a call that failed by `give_up`.
pub struct OpenChange<'a, S: Alter> {
    pub(crate) store: &'a mut DeskStore<S>,
}

impl<'a, S: Alter> OpenChange<'a, S> {
    ghost use Rattle.std.specs.Borrow.{sem};
    ghost use Rattle.desk_store.specs.Lending.{change_lends};

    /// The calls of its connection, by which it is read and written.
    pub fn calls(&mut self) -> &mut Calls<S>
        ensures* lends { sem 𝓛 (change_lends S.row S.Store self.entry result) }
        ensures calls { result.now ≡ self.old.store.now.calls }
    {
        let store = &mut *self.store;
        &mut store.calls
    }

    /// Commits the change. At `Ok` every crash leaves it, and at `Err`, which is `Store`, it or the records before it.
    pub fn commit(self) -> Result<(), Fault>
        ensures commits { Commits HoldsLedger (state S.Store self.entry.store.now.calls.conn) (state S.Store self.exit.0.now.calls.conn) result }
        ensures work { self.exit.0.now.calls.work ≡ self.entry.store.now.calls.work }
        ensures grows { Grows (failures_in result) self.entry.store.now.calls self.exit.0.now.calls }
        ensures failures { self.exit.0.now.calls.failures ≡ fails (errors_in result) self.entry.store.now.calls.failures }
        ensures store { IfErr result (λ e. e ≡ Fault.Store) }
    {
        let OpenChange { store } = self;
        finished(store.calls.commit())
    }

    /// Gives the change up. At `Ok` the records stand as before it. An `Err` is `Store`.
    pub fn give_up(self) -> Result<(), Fault>
        ensures gives_up { GivesUp HoldsLedger (state S.Store self.entry.store.now.calls.conn) (state S.Store self.exit.0.now.calls.conn) result }
        ensures work { self.exit.0.now.calls.work ≡ self.entry.store.now.calls.work }
        ensures grows { Grows (failures_in result) self.entry.store.now.calls self.exit.0.now.calls }
        ensures failures { self.exit.0.now.calls.failures ≡ fails (errors_in result) self.entry.store.now.calls.failures }
        ensures store { IfErr result (λ e. e ≡ Fault.Store) }
    {
        let OpenChange { store } = self;
        if store.calls.is_autocommit() {
            return Ok(());
        }
        finished(store.calls.roll_back())
    }
}
