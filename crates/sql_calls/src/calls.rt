//! The one owner of a connection.

ghost use Rattle.std.specs.Prelude.{◌≡◌, ◌≢◌, ◌≤◌, not, [], IfOk, IfErr, IfSome, length};
ghost use Rattle.sqlite.specs.Held.{state};
ghost use Rattle.sqlite.specs.Values.{bound};
ghost use Rattle.sql_calls.specs.Calls.{RunsText, AsksText, AsksFew, TakesFirst, Grows, counts, no_work, since, rows_in, row_in, few_in, few_of};
ghost use Rattle.sql_calls.specs.Calls.{fails, failures_of, failures_in, errors_in};

use crate::fault::{Fault, asked_fault_of, fault_of};
use sqlite::types::ValueRef;
use sqlite::{Alter, Connection, Error, Row};
use sqlite_schema::schema::Schema;
use std::alloc::Global;

const BEGIN: &str = "BEGIN";

const COMMIT: &str = "COMMIT";

const ROLLBACK: &str = "ROLLBACK";

/// What was run and taken. Each number stays at 2^64 - 1 once it is there.
#[derive(Clone, Copy)]
pub struct Work {
    /// Statements that were handed in, whether or not they succeeded. BEGIN, COMMIT and ROLLBACK are not counted.
    pub statements: u64,
    /// Rows that queries answered.
    pub rows: u64,
}

impl Work {
    /// What was run and taken after an earlier count of the same calls.
    pub fn since(self, earlier: Work) -> Work
        ensures { result ≡ since self earlier }
    {
        Work {
            statements: self.statements.saturating_sub(earlier.statements),
            rows: self.rows.saturating_sub(earlier.rows),
        }
    }
}

/// The one owner of a connection: each call hands in at most one statement, and counts it. No call sets a count back.
#[derive(Drop)]
pub struct Calls<S: Alter> {
    conn: Connection<S>,
    work: Work,
    failures: u64,
    alloc: Global,
}

impl<S: Alter> Calls<S> {
    /// Takes over a connection, with nothing counted.
    pub fn new(alloc: Global, conn: Connection<S>) -> Calls<S>
        ensures conn { result.conn ≡ conn }
        ensures work { result.work ≡ no_work }
        ensures failures { result.failures ≡ 0 }
    {
        Calls {
            conn,
            work: Work {
                statements: 0,
                rows: 0,
            },
            failures: 0,
            alloc,
        }
    }

    /// What memory is taken from.
    pub fn alloc(&self) -> Global {
        self.alloc
    }

    /// Hands the connection back.
    pub fn into_connection(self) -> Connection<S>
        ensures { result ≡ self.conn }
    {
        let Calls { conn, .. } = self;
        conn
    }

    /// What was run and taken so far.
    pub fn work(&self) -> Work
        ensures { result ≡ self.now.work }
    {
        self.work
    }

    /// How often a call failed with `Fault::Store`, or COMMIT or ROLLBACK with any fault. It stays at 2^64 - 1 once it is there.
    pub fn failures(&self) -> u64
        ensures { result ≡ self.now.failures }
    {
        self.failures
    }

    /// The tables, indexes and views that the transaction sees.
    pub fn schema(&self) -> &Schema
        ensures { result.now ≡ (state S.Store self.now.conn).now.schema }
    {
        self.conn.schema()
    }

    /// Whether no transaction is open.
    pub fn is_autocommit(&self) -> bool
        ensures { result ≡ not (state S.Store self.now.conn).in_transaction }
    {
        self.conn.is_autocommit()
    }

    /// Runs one statement that is no query.
    pub fn run(&mut self, sql: &str, params: &[ValueRef<'_>]) -> Result<(), Fault>
        ensures runs { RunsText (state S.Store self.old.conn) (state S.Store self.new.conn) sql.now (bound params.now) result }
        ensures sound { IfErr result (λ fault. fault ≢ Fault.Broken) }
        ensures work { self.new.work ≡ counts self.old.work 0 }
        ensures failures { self.new.failures ≡ fails (failures_in result) self.old.failures }
        ensures grows { Grows (failures_in result) self.old self.new }
    {
        self.count(0);
        self.run_uncounted(sql, params)
    }

    /// Runs one query, and takes all its rows.
    pub fn ask(&mut self, sql: &str, params: &[ValueRef<'_>]) -> Result<Vec<Row>, Fault>
        ensures asks { AsksText (state S.Store self.old.conn) (state S.Store self.new.conn) sql.now (bound params.now) result }
        ensures work { self.new.work ≡ counts self.old.work (rows_in result) }
        ensures failures { self.new.failures ≡ fails (failures_in result) self.old.failures }
        ensures grows { Grows (failures_in result) self.old self.new }
    {
        let answer = ask_on(&mut self.conn, sql, params);
        self.taken(answer)
    }

    /// Runs one query, and takes all its rows; `None` where there are more than `most`, and then none of them is counted.
    pub fn few(
        &mut self,
        sql: &str,
        params: &[ValueRef<'_>],
        most: usize,
    ) -> Result<Option<Vec<Row>>, Fault>
        ensures asks { AsksFew (state S.Store self.old.conn) (state S.Store self.new.conn) sql.now (bound params.now) most result }
        ensures few { IfOk result (λ found. IfSome found (λ rows. length rows.items ≤ most)) }
        ensures work { self.new.work ≡ counts self.old.work (few_in result) }
        ensures failures { self.new.failures ≡ fails (failures_in result) self.old.failures }
        ensures grows { Grows (failures_in result) self.old self.new }
    {
        match few_of(ask_on(&mut self.conn, sql, params), most) {
            Ok(Some(few)) => {
                self.count(few.len() as u64);
                Ok(Some(few))
            }
            Ok(None) => {
                self.count(0);
                Ok(None)
            }
            Err(fault) => {
                self.count(0);
                self.failed(fault);
                Err(fault)
            }
        }
    }

    /// Runs one query, and takes its first row, if there is one.
    pub fn first(&mut self, sql: &str, params: &[ValueRef<'_>]) -> Result<Option<Row>, Fault>
        ensures takes { TakesFirst (state S.Store self.old.conn) (state S.Store self.new.conn) sql.now (bound params.now) result }
        ensures work { self.new.work ≡ counts self.old.work (row_in result) }
        ensures failures { self.new.failures ≡ fails (failures_in result) self.old.failures }
        ensures grows { Grows (failures_in result) self.old self.new }
    {
        match first_on(&mut self.conn, sql, params) {
            Ok(Some(row)) => {
                self.count(1);
                Ok(Some(row))
            }
            Ok(None) => {
                self.count(0);
                Ok(None)
            }
            Err(fault) => {
                self.count(0);
                self.failed(fault);
                Err(fault)
            }
        }
    }

    /// Begins a transaction.
    pub fn begin(&mut self) -> Result<(), Fault>
        ensures runs { RunsText (state S.Store self.old.conn) (state S.Store self.new.conn) BEGIN.now [] result }
        ensures sound { IfErr result (λ fault. fault ≢ Fault.Broken) }
        ensures work { self.new.work ≡ self.old.work }
        ensures failures { self.new.failures ≡ fails (failures_in result) self.old.failures }
        ensures grows { Grows (failures_in result) self.old self.new }
    {
        self.run_uncounted(BEGIN, &[])
    }

    /// Commits the transaction. Any error is counted as a failure, want of memory too.
    pub fn commit(&mut self) -> Result<(), Fault>
        ensures runs { RunsText (state S.Store self.old.conn) (state S.Store self.new.conn) COMMIT.now [] result }
        ensures sound { IfErr result (λ fault. fault ≢ Fault.Broken) }
        ensures work { self.new.work ≡ self.old.work }
        ensures failures { self.new.failures ≡ fails (errors_in result) self.old.failures }
        ensures grows { Grows (errors_in result) self.old self.new }
    {
        self.end(COMMIT)
    }

    /// Rolls the transaction back. Any error is counted as a failure, want of memory too.
    pub fn roll_back(&mut self) -> Result<(), Fault>
        ensures runs { RunsText (state S.Store self.old.conn) (state S.Store self.new.conn) ROLLBACK.now [] result }
        ensures sound { IfErr result (λ fault. fault ≢ Fault.Broken) }
        ensures work { self.new.work ≡ self.old.work }
        ensures failures { self.new.failures ≡ fails (errors_in result) self.old.failures }
        ensures grows { Grows (errors_in result) self.old self.new }
    {
        self.end(ROLLBACK)
    }

    fn run_uncounted(&mut self, sql: &str, params: &[ValueRef<'_>]) -> Result<(), Fault>
        ensures runs { RunsText (state S.Store self.old.conn) (state S.Store self.new.conn) sql.now (bound params.now) result }
        ensures sound { IfErr result (λ fault. fault ≢ Fault.Broken) }
        ensures work { self.new.work ≡ self.old.work }
        ensures failures { self.new.failures ≡ fails (failures_in result) self.old.failures }
        ensures grows { Grows (failures_in result) self.old self.new }
    {
        match run_on(&mut self.conn, sql, params) {
            Ok(()) => Ok(()),
            Err(fault) => {
                self.failed(fault);
                Err(fault)
            }
        }
    }

    /// Runs a text that ends a transaction.
    fn end(&mut self, sql: &str) -> Result<(), Fault>
        ensures runs { RunsText (state S.Store self.old.conn) (state S.Store self.new.conn) sql.now [] result }
        ensures sound { IfErr result (λ fault. fault ≢ Fault.Broken) }
        ensures work { self.new.work ≡ self.old.work }
        ensures failures { self.new.failures ≡ fails (errors_in result) self.old.failures }
        ensures grows { Grows (errors_in result) self.old self.new }
    {
        match run_on(&mut self.conn, sql, &[]) {
            Ok(()) => Ok(()),
            Err(fault) => {
                self.failed(Fault::Store);
                Err(fault)
            }
        }
    }

    /// Counts a query by what it answered.
    fn taken(&mut self, answer: Result<Vec<Row>, Fault>) -> Result<Vec<Row>, Fault>
        ensures answer { result ≡ answer }
        ensures work { self.new.work ≡ counts self.old.work (rows_in answer) }
        ensures failures { self.new.failures ≡ fails (failures_in answer) self.old.failures }
        ensures grows { Grows (failures_in answer) self.old self.new }
        ensures conn { self.new.conn ≡ self.old.conn }
    {
        match answer {
            Ok(rows) => {
                self.count(rows.len() as u64);
                Ok(rows)
            }
            Err(fault) => {
                self.count(0);
                self.failed(fault);
                Err(fault)
            }
        }
    }

    fn count(&mut self, rows: u64)
        ensures work { self.new.work ≡ counts self.old.work rows }
        ensures failures { self.new.failures ≡ self.old.failures }
        ensures grows { Grows 0 self.old self.new }
        ensures conn { self.new.conn ≡ self.old.conn }
    {
        self.work.statements = self.work.statements.saturating_add(1);
        self.work.rows = self.work.rows.saturating_add(rows);
    }

    fn failed(&mut self, fault: Fault)
        ensures failures { self.new.failures ≡ fails (failures_of fault) self.old.failures }
        ensures grows { Grows (failures_of fault) self.old self.new }
        ensures work { self.new.work ≡ self.old.work }
        ensures conn { self.new.conn ≡ self.old.conn }
    {
        if matches!(fault, Fault::Store) {
            self.failures = self.failures.saturating_add(1);
        }
    }
}

fn run_on<S: Alter>(
    conn: &mut Connection<S>,
    sql: &str,
    params: &[ValueRef<'_>],
) -> Result<(), Fault>
    ensures runs { RunsText (state S.Store conn.old) (state S.Store conn.new) sql.now (bound params.now) result }
    ensures sound { IfErr result (λ fault. fault ≢ Fault.Broken) }
{
    match conn.execute(sql, params) {
        Ok(_) => Ok(()),
        Err(error) => Err(fault_of(error)),
    }
}

fn ask_on<S: Alter>(
    conn: &mut Connection<S>,
    sql: &str,
    params: &[ValueRef<'_>],
) -> Result<Vec<Row>, Fault>
    ensures asks { AsksText (state S.Store conn.old) (state S.Store conn.new) sql.now (bound params.now) result }
{
    match conn.query_all(sql, params) {
        Ok(rows) => Ok(rows),
        Err(error) => Err(asked_fault_of(error)),
    }
}

fn few_of(answer: Result<Vec<Row>, Fault>, most: usize) -> Result<Option<Vec<Row>>, Fault>
    ensures few { result ≡ few_of most answer }
    ensures at_most { IfOk result (λ found. IfSome found (λ rows. length rows.items ≤ most)) }
{
    let rows = answer?;
    if rows.len() <= most {
        Ok(Some(rows))
    } else {
        Ok(None)
    }
}

fn first_on<S: Alter>(
    conn: &mut Connection<S>,
    sql: &str,
    params: &[ValueRef<'_>],
) -> Result<Option<Row>, Fault>
    ensures takes { TakesFirst (state S.Store conn.old) (state S.Store conn.new) sql.now (bound params.now) result }
{
    match conn.query_row(sql, params) {
        Ok(row) => Ok(Some(row)),
        Err(Error::QueryReturnedNoRows) => Ok(None),
        Err(error) => Err(asked_fault_of(error)),
    }
}
