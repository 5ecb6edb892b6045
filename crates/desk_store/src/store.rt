//! The one owner of a desk's connection.

ghost use Rattle.std.specs.Prelude.{◌≡◌, ◌≢◌, not, [], IfOk, IfErr};
ghost use Rattle.sqlite.specs.Held.{state};
ghost use Rattle.sql_calls.specs.Calls.{RunsText, Grows, fails, no_work, failures_in};
ghost use Rattle.sql_calls.specs.Standing.{Begins};
ghost use Rattle.desk_records.specs.Holds.{HoldsLedger};
ghost use Rattle.desk_records.specs.Tables.{HoldsTables};
ghost use Rattle.desk_store.specs.private.Texts.{begin_text};

use crate::change::OpenChange;
use sql_calls::{Calls, Fault, Work};
use sqlite::{Alter, Connection};
use std::alloc::Global;

/// The tables of a desk. All its statements go through one `Calls`.
#[derive(Drop)]
pub struct DeskStore<S: Alter> {
    pub(crate) calls: Calls<S>,
}

impl<S: Alter> DeskStore<S> {
    /// Takes over a connection to a database that holds a desk's tables, with nothing counted.
    pub fn new(alloc: Global, conn: Connection<S>) -> DeskStore<S>
        ensures conn { result.calls.conn ≡ conn }
        ensures work { result.calls.work ≡ no_work }
    {
        DeskStore {
            calls: Calls::new(alloc, conn),
        }
    }

    /// What was run and taken so far.
    pub fn work(&self) -> Work
        ensures { result ≡ self.now.calls.work }
    {
        self.calls.work()
    }

    /// Hands the connection back.
    pub fn into_connection(self) -> Connection<S>
        ensures { result ≡ self.calls.conn }
    {
        let DeskStore { calls } = self;
        calls.into_connection()
    }

    fn start(&mut self) -> Result<(), Fault>
        ensures runs { RunsText (state S.Store self.old.calls.conn) (state S.Store self.new.calls.conn) begin_text [] result }
        ensures sound { IfErr result (λ fault. fault ≢ Fault.Broken) }
        ensures work { self.new.calls.work ≡ self.old.calls.work }
        ensures grows { Grows (failures_in result) self.old.calls self.new.calls }
        ensures failures { self.new.calls.failures ≡ fails (failures_in result) self.old.calls.failures }
    {
        self.calls.begin()
    }
}

impl<S: Alter> DeskStore<S> {
    ghost use Rattle.std.specs.Borrow.{sem};
    ghost use Rattle.desk_store.specs.Lending.{store_rests};

    /// Begins a change. Where that is refused, the records stand as before. Counts nothing.
    pub fn begin(&mut self) -> Result<OpenChange<'_, S>, Fault>
        ensures* refused { sem 𝓛 (store_rests S.row S.Store self.entry result) }
        ensures sound { IfErr result (λ fault. fault ≢ Fault.Broken) }
        ensures same_reference { IfOk result (λ c. c.store.ghost_name ≡ self.entry.ghost_name) }
        ensures begun { IfOk result (λ c. Begins HoldsLedger (state S.Store self.old.calls.conn) (state S.Store c.store.now.calls.conn)) }
        ensures tables { IfOk result (λ c. Begins HoldsTables (state S.Store self.old.calls.conn) (state S.Store c.store.now.calls.conn)) }
        ensures work { IfOk result (λ c. c.store.now.calls.work ≡ self.old.calls.work) }
        ensures grows { IfOk result (λ c. Grows 0 self.old.calls c.store.now.calls) }
    {
        match self.start() {
            Ok(()) => Ok(OpenChange { store: self }),
            Err(fault) => Err(fault),
        }
    }
}
