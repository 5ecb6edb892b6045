//! A new desk.

ghost use Rattle.std.specs.Prelude.{IfErr, map};
ghost use Rattle.sqlite.specs.Held.{state};
ghost use Rattle.desk_opening.specs.Counting.{CountsOpening};
ghost use Rattle.desk_opening.specs.Making.{AreApart, Makes, MakesTables};
ghost use Rattle.desk_opening.specs.Opening.{IsFailure};
ghost use Rattle.desk_opening.specs.Places.{place_of};

use crate::desk_table::{DeskTable, TABLES};
use crate::opening::OpenFault;
use desk_records::PUT_DESK;
use sql_calls::Calls;
use sqlite::{Alter, params};

/// Makes these tables.
pub(crate) fn make_tables<S: Alter>(
    calls: &mut Calls<S>,
    tables: &[DeskTable],
) -> Result<(), OpenFault>
    requires { AreApart (map place_of tables.now) }
    ensures makes { MakesTables (map place_of tables.now) (state S.Store calls.old.conn) (state S.Store calls.new.conn) result }
    ensures failed { IfErr result IsFailure }
    ensures counts { CountsOpening calls.old calls.new result }
{
    for table in tables {
        calls.run(table.create_text(), &[])?;
    }
    Ok(())
}

/// Makes a new desk in one transaction, in the connection's database, which uses none of its names.
pub(crate) fn fill<S: Alter>(calls: &mut Calls<S>, approval: bool) -> Result<(), OpenFault>
    ensures makes { Makes (state S.Store calls.old.conn) (state S.Store calls.new.conn) approval result }
    ensures failed { IfErr result IsFailure }
    ensures counts { CountsOpening calls.old calls.new result }
{
    calls.begin()?;
    make_tables(calls, &TABLES)?;
    calls.run(PUT_DESK, params![approval])?;
    calls.commit()?;
    Ok(())
}
