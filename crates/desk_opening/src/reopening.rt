//! A desk over files.

ghost use Rattle.std.specs.Prelude.{◌≡◌, ◌≢◌, IsTrue, IfOk, IfErr};
ghost use Rattle.sqlite.specs.Files.{file_state, image_of};
ghost use Rattle.sqlite_wal.specs.Files.{outcomes};
ghost use Rattle.sqlite.specs.WalFiles.{image_at};
ghost use Rattle.desk_opening.specs.Opening.{IsFailure};
ghost use Rattle.desk_opening.specs.Reopening.{BeginsPlain, LeavesPath, LeavesUnharmed, Reopens};

use crate::opening::{OpenFault, open_desk};
use crate::path::{PathLeftover, open_at};
use sql_calls::{Calls, fault_of};
use sqlite::{Connection, Error, ErrorCode, FileFrom, FileStore, Files, Leftover, Options, Start};
use sqlite_disk::Disk;
use std::alloc::Global;

/// What is left of the files over which no desk is opened.
#[derive(Drop)]
pub enum DeskLeftover<D: Disk> {
    /// They weren't opened.
    Unopened(Leftover<D>),
    /// The connection, with what was counted of its calls.
    Refused(Calls<FileStore<D>>),
}

/// Opens the desk that the files hold, or a new one where they hold no database, or one that uses no name of a desk. A fault comes with
/// what is left of the files.
pub fn reopen_files<D: Disk + Drop>(
    alloc: Global,
    files: Files<D>,
    options: Options,
    approval_if_new: bool,
) -> Result<Connection<FileStore<D>>, (OpenFault, DeskLeftover<D>)>
    requires log { IsTrue (D.Disk.is_usable files.log) }
    requires db { IsTrue (D.Disk.is_usable files.db) }
    ensures reopened { IfOk result (λ conn. Reopens (image_of D.Disk files) (file_state conn) approval_if_new) }
    ensures plain { IfOk result (λ conn. BeginsPlain (image_of D.Disk files) approval_if_new conn) }
    ensures refused { IfErr result (λ e. LeavesUnharmed (outcomes D.Disk files.log files.db) (image_of D.Disk files) approval_if_new e.0 e.1) }
{
    match Connection::open_files(alloc, files, options) {
        Ok(conn) => match open_desk(alloc, conn, approval_if_new) {
            Ok(opened) => Ok(opened),
            Err((fault, calls)) => Err((fault, DeskLeftover::Refused(calls))),
        },
        Err((error, left)) => Err((refused_open(error), DeskLeftover::Unopened(left))),
    }
}

/// The same for the file at a path, with its log beside it. A file that another process holds is refused as `Store`.
pub fn reopen_path<S: Start>(
    rt: &HostRuntime,
    path: &str,
    start: S,
    approval_if_new: bool,
) -> Result<Connection<FileStore<FileFrom<S>>>, (OpenFault, PathLeftover<FileFrom<S>>)>
    ensures reopened { IfOk result (λ conn. Reopens (image_at S.Start) (file_state conn) approval_if_new) }
    ensures plain { IfOk result (λ conn. BeginsPlain (image_at S.Start) approval_if_new conn) }
    ensures refused { IfErr result (λ e. LeavesPath (image_at S.Start) approval_if_new e.0 e.1) }
{
    match open_at(rt, path, start) {
        Ok(conn) => match open_desk(rt.alloc(), conn, approval_if_new) {
            Ok(opened) => Ok(opened),
            Err((fault, calls)) => Err((fault, PathLeftover::Opened(DeskLeftover::Refused(calls)))),
        },
        Err(refused) => Err(refused),
    }
}

/// The fault of files that aren't opened.
pub(crate) fn refused_open(error: Error) -> OpenFault
    ensures opened { error ≢ Error.SqliteFailure ErrorCode.NotADatabase → IsFailure result }
    ensures named { result ≢ OpenFault.NewerVersion }
    ensures memory { result ≡ OpenFault.Store → error ≢ Error.SqliteFailure ErrorCode.OutOfMemory }
{
    match error {
        Error::SqliteFailure(ErrorCode::NotADatabase) => OpenFault::NotDesk,
        error => OpenFault::from(fault_of(error)),
    }
}
