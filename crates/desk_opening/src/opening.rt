//! A desk that is there already.

ghost use Rattle.std.specs.Prelude.{◌≡◌, ◌≢◌, ◌⊎◌, Err, IfOk, IfErr, IsTrue, Ok, codes, false, map};
ghost use Rattle.sql_front.specs.Free.{LeavesFree};
ghost use Rattle.sql_front.specs.Found.{StandsSomewhere};
ghost use Rattle.std.specs.List.{list_any};
ghost use Rattle.sqlite_catalog.specs.Change.{is_used};
ghost use Rattle.desk_records.specs.Columns.{StoredText};
ghost use Rattle.desk_records.specs.Schema.{desk_names, desk_table, name_of, table_at};
ghost use Rattle.desk_opening.specs.Places.{place_of};
ghost use Rattle.sqlite_value.specs.Order.{column};
ghost use Rattle.sqlite.specs.Compile.{table_defined_by};
ghost use Rattle.sqlite.specs.Held.{state};
ghost use Rattle.sqlite.specs.State.{HasCleanDisk};
ghost use Rattle.desk_opening.specs.Faults.{fault_row, open_fault};
ghost use Rattle.desk_opening.specs.Making.{told};
ghost use Rattle.desk_records.specs.Versions.{newest};
ghost use Rattle.desk_opening.specs.Opening.{Adopts, HasDeskTables, IsDeskRow, IsFailure, IsSettled, IsWholeAt, Keeps, LacksAt, OpensDesk, TakesDeskRow};
ghost use Rattle.desk_opening.specs.Opening.{TellsOfRow, TellsVersion};
ghost use Rattle.desk_opening.specs.Migrating.{Migrates};
ghost use Rattle.desk_opening.specs.Counting.{CountsOpening, CountsWhere, IsReadableAt};
ghost use Rattle.desk_opening.specs.Causes.{HadReadable, HasCause, WasHealthy};

use crate::desk_table::{DeskTable, TABLES};
use crate::making::fill;
use crate::migrating::migrate;
use crate::version_tables::{tables_after, tables_at};
use desk_records::{GET_DESK, Version};
use sql_calls::{Calls, Fault, fault_of};
use sql_front::{stands, uses_name};
use sqlite::{Alter, Connection, Error, ErrorCode, Row};
use sqlite_resolve::{CompileError, define_table};
use sqlite_schema::schema::{Schema, Table};
use std::alloc::Global;

/// Why a database is not opened as a desk.
#[derive(Clone, Copy)]
pub enum OpenFault {
    /// It uses a name of a desk's, and is none.
    NotDesk,
    /// A later version of the program made it.
    NewerVersion,
    /// There was not enough memory.
    Memory,
    /// The store failed, or another process holds the file.
    Store,
}

impl OpenFault {
    /// From 1 on, in the order of the variants.
    pub fn number(self) -> u8
        ensures { result ≡ (fault_row self).number }
    {
        match self {
            OpenFault::NotDesk => 1,
            OpenFault::NewerVersion => 2,
            OpenFault::Memory => 3,
            OpenFault::Store => 4,
        }
    }

    /// The word that is printed beside the number.
    pub fn name(self) -> &'static str
        ensures { result.now ≡ (fault_row self).name }
    {
        match self {
            OpenFault::NotDesk => "not_desk",
            OpenFault::NewerVersion => "newer_version",
            OpenFault::Memory => "memory",
            OpenFault::Store => "store",
        }
    }
}

impl From<Fault> for OpenFault {
    ghost from_gives = { λ fault e. e ≡ open_fault fault };

    fn from(fault: Fault) -> OpenFault {
        match fault {
            Fault::Memory => OpenFault::Memory,
            Fault::Store | Fault::Broken => OpenFault::Store,
        }
    }
}

/// The table that a text makes.
fn table_of(alloc: Global, text: &str) -> Result<Table, OpenFault>
    ensures defined { IfOk result (λ table. table_defined_by text.now ≡ Ok table) }
    ensures failed { IfErr result IsFailure }
    ensures memory { IfErr result (λ e. (table : _) → table_defined_by text.now ≡ Ok table → e ≢ OpenFault.Store) }
{
    match define_table(alloc, text.as_bytes()) {
        Ok(table) => Ok(table),
        Err(CompileError::OutOfMemory) => Err(OpenFault::Memory),
        Err(_) => Err(OpenFault::Store),
    }
}

/// Whether the schema has one of the tables, column for column.
fn has_table(alloc: Global, schema: &Schema, table: DeskTable) -> Result<bool, OpenFault>
    ensures found { IfOk result (λ found. IsTrue found → StandsSomewhere schema.now (table_at (place_of table) 0)) }
    ensures missing { IfOk result (λ found. found ≡ false → StandsSomewhere schema.now (table_at (place_of table) 0) → ⊥) }
    ensures failed { IfErr result IsFailure }
    ensures memory { IfErr result (λ e. e ≢ OpenFault.Store) }
{
    let wanted = table_of(alloc, table.create_text())?;
    Ok(stands(schema, &wanted))
}

/// Whether the schema has all tables of a version, and uses no name of a later one's.
fn has_tables_of(alloc: Global, schema: &Schema, version: Version) -> Result<bool, OpenFault>
    ensures found { IfOk result (λ found. IsTrue found → HasDeskTables version schema.now) }
    ensures missing { IfOk result (λ found. found ≡ false → HasDeskTables version schema.now → ⊥) }
    ensures failed { IfErr result IsFailure }
    ensures memory { IfErr result (λ e. e ≢ OpenFault.Store) }
{
    for table in tables_at(version) {
        if !has_table(alloc, schema, *table)? {
            return Ok(false);
        }
    }
    Ok(!uses_name_of(schema, tables_after(version)))
}

/// The version that a desk's row names, if the program reads it.
fn judge(row: &Row) -> Result<Version, OpenFault>
    ensures tells { TellsOfRow (λ v. IsDeskRow v row.now) (λ Says. Says row.now) ⊥ result }
    ensures memory { IfErr result (λ e. e ≢ OpenFault.Store) }
{
    if !has_format(row)? {
        return Err(OpenFault::NotDesk);
    }
    match row.get::<i64>(1) {
        Ok(1) => Ok(Version::One),
        Ok(2) => Ok(Version::Two),
        Ok(3) => Ok(Version::Three),
        Ok(number) if number > 3 => Err(OpenFault::NewerVersion),
        Ok(_) => Err(OpenFault::NotDesk),
        Err(error) => Err(unread(error)),
    }
}

/// Whether the row begins with the format of a desk.
fn has_format(row: &Row) -> Result<bool, OpenFault>
    ensures found { IfOk result (λ found. IsTrue found → column row.now 0 ≡ StoredText (codes "fwdesk")) }
    ensures other { IfOk result (λ found. found ≡ false → column row.now 0 ≢ StoredText (codes "fwdesk")) }
    ensures unread { IfErr result (λ e. (e ≢ OpenFault.NewerVersion) × (e ≢ OpenFault.Store)) }
    ensures unreadable { IfErr result (λ e. e ≡ OpenFault.NotDesk → column row.now 0 ≢ StoredText (codes "fwdesk")) }
{
    match row.get::<String>(0) {
        Ok(format) => Ok(format.as_str() == "fwdesk"),
        Err(error) => Err(unread(error)),
    }
}

/// The fault of a column that can't be read.
fn unread(error: Error) -> OpenFault
    ensures named { (result ≢ OpenFault.NewerVersion) × (result ≢ OpenFault.Store) }
    ensures memory { result ≡ OpenFault.NotDesk → error ≢ Error.SqliteFailure ErrorCode.OutOfMemory }
{
    match fault_of(error) {
        Fault::Memory => OpenFault::Memory,
        Fault::Store | Fault::Broken => OpenFault::NotDesk,
    }
}

/// The version that a desk's row names, if the program reads it and the schema has its tables.
fn judge_whole(alloc: Global, schema: &Schema, row: &Row) -> Result<Version, OpenFault>
    ensures tells { TellsOfRow (IsWholeAt row.now schema.now) (λ Says. Says row.now) (LacksAt row.now schema.now) result }
    ensures memory { IfErr result (λ e. e ≢ OpenFault.Store) }
{
    let version = judge(row)?;
    if has_tables_of(alloc, schema, version)? {
        Ok(version)
    } else {
        Err(OpenFault::NotDesk)
    }
}

/// The version of the desk that a change sees: its row is read first, and then the tables of the version that it names are looked at.
fn see_version<S: Alter>(alloc: Global, calls: &mut Calls<S>) -> Result<Version, OpenFault>
    ensures took { TakesDeskRow (state S.Store calls.old.conn) (state S.Store calls.new.conn) }
    ensures counts { CountsOpening calls.old calls.new result }
    ensures tells { HasCleanDisk (state S.Store calls.new.conn) → TellsVersion (state S.Store calls.old.conn).now result }
{
    match calls.first(GET_DESK, &[]) {
        Ok(Some(row)) => judge_whole(alloc, calls.schema(), &row),
        Ok(None) => Err(OpenFault::NotDesk),
        // The table isn't the one that this query asks.
        Err(Fault::Broken) => Err(OpenFault::NotDesk),
        Err(fault) => Err(OpenFault::from(fault)),
    }
}

/// The version of the desk that the database holds. Leaves what stood.
fn find_version<S: Alter>(alloc: Global, calls: &mut Calls<S>) -> Result<Version, OpenFault>
    ensures keeps { Keeps (state S.Store calls.old.conn) (state S.Store calls.new.conn) result }
    ensures counts { CountsOpening calls.old calls.new result }
    ensures tells { HasCleanDisk (state S.Store calls.new.conn) → TellsVersion (state S.Store calls.old.conn).now result }
{
    calls.begin()?;
    let seen = see_version(alloc, calls);
    match calls.roll_back() {
        Ok(()) => seen,
        Err(fault) => Err(first_fault(seen, fault)),
    }
}

/// The fault that is told where what was seen can't be rolled back. Want of memory comes first: a statement that it ends may have rolled
/// back by itself, and then ROLLBACK finds no transaction.
fn first_fault(seen: Result<Version, OpenFault>, fault: Fault) -> OpenFault
    ensures { IsFailure result }
{
    match seen {
        Err(OpenFault::Memory) => OpenFault::Memory,
        _ => OpenFault::from(fault),
    }
}

/// Takes a database as the desk that it holds. The row of `desk` is read first, and then the tables of the version that it names are
/// looked at: a later version may have others. The tables of an older version become those of the newest.
fn take_over<S: Alter>(alloc: Global, calls: &mut Calls<S>) -> Result<(), OpenFault>
    ensures adopts { Adopts (state S.Store calls.old.conn) (state S.Store calls.new.conn) result }
    ensures fails { CountsWhere (HadReadable (state S.Store calls.old.conn) (state S.Store calls.new.conn)) calls.old calls.new result }
{
    if !has_table(alloc, calls.schema(), DeskTable::Desk)? {
        return Err(OpenFault::NotDesk);
    }
    let version = find_version(alloc, calls)?;
    renew(alloc, calls, version)
}

/// Makes the tables of an older version into those of the newest, and looks at them again.
fn renew<S: Alter>(alloc: Global, calls: &mut Calls<S>, version: Version) -> Result<(), OpenFault>
    ensures renews { Migrates version (state S.Store calls.old.conn) (state S.Store calls.new.conn) result }
    ensures renewed { IfOk result (λ it. (version ≡ newest) ⊎ HasDeskTables newest (state S.Store calls.new.conn).now.schema) }
    ensures failed { IfErr result IsFailure }
    ensures fails { CountsWhere (IsReadableAt version (state S.Store calls.old.conn) (state S.Store calls.new.conn)) calls.old calls.new result }
{
    if let Version::Three = version {
        return Ok(());
    }
    migrate(calls, version)?;
    look_again(alloc, calls.schema())
}

/// Whether the schema has the tables of the newest version, which were just made.
fn look_again(alloc: Global, schema: &Schema) -> Result<(), OpenFault>
    ensures found { IfOk result (λ found. HasDeskTables newest schema.now) }
    ensures failed { IfErr result IsFailure }
    ensures missing { result ≡ Err OpenFault.Store → HasDeskTables newest schema.now → ⊥ }
{
    if has_tables_of(alloc, schema, Version::Three)? {
        Ok(())
    } else {
        Err(OpenFault::Store)
    }
}

/// Whether a table, an index or a view has a name of a desk's tables, whatever the case of ASCII letters.
fn uses_desk_name(schema: &Schema) -> bool
    ensures used { IsTrue result → LeavesFree schema.now desk_names → ⊥ }
    ensures free { result ≡ false → LeavesFree schema.now desk_names }
{
    uses_name_of(schema, &TABLES)
}

/// Whether one of the tables' names is used.
fn uses_name_of(schema: &Schema, tables: &[DeskTable]) -> bool
    ensures { result ≡ list_any (λ table. is_used schema.now (name_of (place_of table))) tables.now }
{
    tables.iter().any(|table| uses_name(schema, table.name()))
}

/// Opens the desk in a connection's database: the one that is there, or a new one where no name of a desk is used. A connection that is
/// refused is given back with what was counted of its calls.
pub fn open_desk<S: Alter + Drop>(
    alloc: Global,
    conn: Connection<S>,
    approval_if_new: bool,
) -> Result<Connection<S>, (OpenFault, Calls<S>)>
    ensures opened { IfOk result (λ opened. OpensDesk (state S.Store conn) (state S.Store opened) approval_if_new (told result)) }
    ensures refused { IfErr result (λ e. OpensDesk (state S.Store conn) (state S.Store e.1.conn) approval_if_new (told result)) }
    ensures settled { IsSettled (state S.Store conn) }
    ensures fails { IfErr result (λ e. HasCause S.Store (state S.Store conn) e.1 e.0) }
{
    let mut calls = Calls::new(alloc, conn);
    match enter(alloc, &mut calls, approval_if_new) {
        Ok(()) => Ok(calls.into_connection()),
        Err(fault) => Err((fault, calls)),
    }
}

/// The same for a caller that keeps the connection.
fn enter<S: Alter>(
    alloc: Global,
    calls: &mut Calls<S>,
    approval_if_new: bool,
) -> Result<(), OpenFault>
    ensures opens { OpensDesk (state S.Store calls.old.conn) (state S.Store calls.new.conn) approval_if_new result }
    ensures settled { IsSettled (state S.Store calls.old.conn) }
    ensures fails { CountsWhere (WasHealthy (state S.Store calls.old.conn) (state S.Store calls.new.conn)) calls.old calls.new result }
{
    if uses_desk_name(calls.schema()) {
        return take_over(alloc, calls);
    }
    fill(calls, approval_if_new)
}
