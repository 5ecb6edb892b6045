//! The tables of an older version become those of the newest.

ghost use Rattle.std.specs.Prelude.{IfErr, IfOk};
ghost use Rattle.sqlite.specs.Held.{state};
ghost use Rattle.desk_opening.specs.Counting.{CountsWhere, IsReadableAt};
ghost use Rattle.desk_opening.specs.Migrating.{Migrates};
ghost use Rattle.desk_opening.specs.Opening.{IsFailure, IsKnownOpen};

use crate::filling::fill_later;
use crate::making::make_tables;
use crate::opening::OpenFault;
use crate::version_tables::tables_after;
use desk_records::{SET_VERSION, Version};
use sql_calls::Calls;
use sqlite::Alter;

/// Makes the tables of a version into those of the newest, in one transaction. After an error the caller still has the connection.
pub(crate) fn migrate<S: Alter>(calls: &mut Calls<S>, version: Version) -> Result<(), OpenFault>
    ensures migrates { Migrates version (state S.Store calls.old.conn) (state S.Store calls.new.conn) result }
    ensures failed { IfErr result IsFailure }
    ensures fails { CountsWhere (IsReadableAt version (state S.Store calls.old.conn) (state S.Store calls.new.conn)) calls.old calls.new result }
    ensures opened { IfOk result (λ done. IsKnownOpen (state S.Store calls.new.conn)) }
{
    calls.begin()?;
    make_tables(calls, tables_after(version))?;
    calls.run(SET_VERSION, &[])?;
    fill_later(calls, version)?;
    calls.commit()?;
    Ok(())
}
