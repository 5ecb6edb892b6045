//! The statements that typed calls are made of.

ghost use Rattle.std.specs.Prelude.{◌≡◌, length};
ghost use Rattle.sqlite.specs.Values.{bound};
ghost use Rattle.sql_calls.specs.Calls.{AsksFew, AsksText, RunsText, TakesFirst, counts, row_in, rows_in};
ghost use Rattle.sql_calls.specs.private.Means.{KnowsQuery, KnowsWrite};
ghost use Rattle.desk_records.specs.Holds.{HoldsLedger};
ghost use Rattle.desk_records.specs.Tables.{HoldsTables};
ghost use Rattle.desk_store.specs.Blaming.{Blames};
ghost use Rattle.desk_store.specs.Breaking.{NeverBreaks};
ghost use Rattle.desk_store.specs.Changing.{KeepsTables, StaysIn, seen_in};
ghost use Rattle.desk_store.specs.Counting.{AddsIn};
ghost use Rattle.desk_store.specs.Failing.{FailsIn, NeverFails};

use sql_calls::{Calls, Fault};
use sqlite::types::ValueRef;
use sqlite::{Alter, Row};

/// Runs one query, and takes its first row, if there is one.
#[tactic(auto, using(crate::proofs::BlameLemmas::statement_keeps))]
pub(crate) fn first<S: Alter>(
    calls: &mut Calls<S>,
    sql: &str,
    params: &[ValueRef<'_>],
) -> Result<Option<Row>, Fault>
    requires { KnowsQuery HoldsTables sql.now (length (bound params.now)) }
    ensures stays { StaysIn S.Store calls.old calls.new result }
    ensures keeps { KeepsTables S.Store calls.old calls.new result }
    ensures fails { FailsIn S.Store calls.old calls.new result }
    ensures never { NeverFails S.Store calls.old calls.new result }
    ensures blames { Blames S.Store calls.old calls.new result }
    ensures takes { TakesFirst (seen_in S.Store calls.old) (seen_in S.Store calls.new) sql.now (bound params.now) result }
    ensures work { calls.new.work ≡ counts calls.old.work (row_in result) }
{
    calls.first(sql, params)
}

/// Runs one query, and takes all its rows.
#[tactic(auto, using(crate::proofs::BlameLemmas::statement_keeps))]
pub(crate) fn ask<S: Alter>(
    calls: &mut Calls<S>,
    sql: &str,
    params: &[ValueRef<'_>],
) -> Result<Vec<Row>, Fault>
    requires { KnowsQuery HoldsTables sql.now (length (bound params.now)) }
    ensures stays { StaysIn S.Store calls.old calls.new result }
    ensures keeps { KeepsTables S.Store calls.old calls.new result }
    ensures fails { FailsIn S.Store calls.old calls.new result }
    ensures blames { Blames S.Store calls.old calls.new result }
    ensures asks { AsksText (seen_in S.Store calls.old) (seen_in S.Store calls.new) sql.now (bound params.now) result }
    ensures work { calls.new.work ≡ counts calls.old.work (rows_in result) }
{
    calls.ask(sql, params)
}

/// Runs one query, and takes its rows; `None` where there are more than so many.
#[tactic(auto, using(crate::proofs::BlameLemmas::statement_keeps))]
pub(crate) fn few<S: Alter>(
    calls: &mut Calls<S>,
    sql: &str,
    params: &[ValueRef<'_>],
    most: usize,
) -> Result<Option<Vec<Row>>, Fault>
    requires { KnowsQuery HoldsTables sql.now (length (bound params.now)) }
    ensures stays { StaysIn S.Store calls.old calls.new result }
    ensures asks { AsksFew (seen_in S.Store calls.old) (seen_in S.Store calls.new) sql.now (bound params.now) most result }
    ensures fails { FailsIn S.Store calls.old calls.new result }
    ensures blames { Blames S.Store calls.old calls.new result }
    ensures work { AddsIn 1 most calls.old calls.new }
{
    calls.few(sql, params, most)
}

/// Runs one statement that writes rows.
#[tactic(auto, using(crate::proofs::BlameLemmas::statement_keeps))]
pub(crate) fn run<S: Alter>(
    calls: &mut Calls<S>,
    sql: &str,
    params: &[ValueRef<'_>],
) -> Result<(), Fault>
    requires { KnowsWrite HoldsLedger sql.now }
    ensures stays { StaysIn S.Store calls.old calls.new result }
    ensures runs { RunsText (seen_in S.Store calls.old) (seen_in S.Store calls.new) sql.now (bound params.now) result }
    ensures sound { NeverBreaks S.Store calls.new result }
    ensures work { calls.new.work ≡ counts calls.old.work 0 }
{
    calls.run(sql, params)
}
