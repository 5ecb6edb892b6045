//! Calls of the database: what they count, a transaction that is rolled back, and a commit that fails.

use sql_calls::Calls;
use sqlite::{Alter, Connection, MemStore};
use std::alloc::Global;

const CREATE: &str = "CREATE TABLE note (number INTEGER PRIMARY KEY, title TEXT NOT NULL) STRICT";

const INSERT: &str = "INSERT INTO note (title) VALUES ('Pump')";

const SELECT: &str = "SELECT title FROM note";

fn new_calls(alloc: Global) -> Option<Calls<MemStore>> {
    Some(Calls::new(alloc, Connection::open_in_memory(alloc).ok()?))
}

fn runs<S: Alter>(calls: &mut Calls<S>, sql: &str) -> bool {
    calls.run(sql, &[]).is_ok()
}

fn has<S: Alter>(calls: &mut Calls<S>, count: usize) -> bool {
    match calls.ask(SELECT, &[]) {
        Ok(rows) => rows.len() == count,
        Err(_) => false,
    }
}

/// Whether the query's first row is there.
fn has_first<S: Alter>(calls: &mut Calls<S>) -> bool {
    match calls.first(SELECT, &[]) {
        Ok(row) => row.is_some(),
        Err(_) => false,
    }
}

fn begins<S: Alter>(calls: &mut Calls<S>) -> bool {
    calls.begin().is_ok() && !calls.is_autocommit()
}

fn commits<S: Alter>(calls: &mut Calls<S>) -> bool {
    calls.commit().is_ok() && calls.is_autocommit()
}

fn rolls_back<S: Alter>(calls: &mut Calls<S>) -> bool {
    calls.roll_back().is_ok() && calls.is_autocommit()
}

fn has_counted<S: Alter>(calls: &Calls<S>, statements: u64, rows: u64, failures: u64) -> bool {
    let work = calls.work();
    work.statements == statements && work.rows == rows && calls.failures() == failures
}

/// A new table gets two rows.
fn adds_two<S: Alter>(calls: &mut Calls<S>) -> bool {
    runs(calls, CREATE)
        && !has_first(calls)
        && runs(calls, INSERT)
        && runs(calls, INSERT)
        && has(calls, 2)
        && has_first(calls)
        && has_counted(calls, 6, 3, 0)
}

/// A third row is rolled back, and another one is kept.
fn adds_a_third<S: Alter>(calls: &mut Calls<S>) -> bool {
    begins(calls)
        && runs(calls, INSERT)
        && rolls_back(calls)
        && has(calls, 2)
        && begins(calls)
        && runs(calls, INSERT)
        && commits(calls)
        && has(calls, 3)
}

/// A commit without a begin fails, and is counted as a failure alone.
fn fails_to_commit<S: Alter>(calls: &mut Calls<S>) -> bool {
    !commits(calls) && has_counted(calls, 10, 8, 1)
}

#[test]
fn calls_are_counted(rt: HostRuntime) {
    match new_calls(rt.alloc()) {
        Some(mut calls) => {
            assert!(rt; adds_two(&mut calls));
            assert!(rt; adds_a_third(&mut calls));
            assert!(rt; fails_to_commit(&mut calls));
        }
        None => assert!(rt; false, "memory"),
    }
}
