//! A desk over files.

ghost use Rattle.std.specs.Prelude.{IsTrue, IfOk, IfErr};
ghost use Rattle.sqlite.specs.Files.{image_of, over_files};
ghost use Rattle.sqlite.specs.FileStore.{recovers};
ghost use Rattle.sqlite.specs.Steps.{over_memory};
ghost use Rattle.sqlite.specs.WalReads.{AreClean};
ghost use Rattle.sqlite.specs.WalFiles.{image_at, outcomes};
ghost use Rattle.rollout_machine.specs.CommandList.{Make};
ghost use Rattle.rollout_machine.specs.Standing.{StandsFor};
ghost use Rattle.desk_opening.specs.Opening.{IsFailure};
ghost use Rattle.desk_opening.specs.Reopening.{BeginsPlain, LeavesPath};
ghost use Rattle.rollout_desk.specs.DeskStates.{desk_state};
ghost use Rattle.rollout_desk.specs.Openings.{ReopensDesk, ReopensFiles, LeavesFiles, GivesBack, GoesOnAfterCrash, GoesOnOver};

use crate::desk::Desk;
use desk_opening::{DeskLeftover, OpenFault, PathLeftover, open_desk, reopen_files, reopen_path};
use desk_store::DeskStore;
use sqlite::{Alter, Connection, Error, FileFrom, FileStore, Files, MemStore, Options, Start};
use sqlite_disk::Disk;
use std::alloc::Global;

impl<D: Disk + Drop> Desk<FileStore<D>> {
    /// Opens the desk that the files hold, or makes a new one where they hold no database, or one that uses no name of a desk. A fault
    /// comes with what is left of the files.
    pub fn reopen(
        alloc: Global,
        files: Files<D>,
        options: Options,
        approval_if_new: bool,
    ) -> Result<Desk<FileStore<D>>, (OpenFault, DeskLeftover<D>)>
        requires log { IsTrue (D.Disk.is_usable files.log) }
        requires db { IsTrue (D.Disk.is_usable files.db) }
        ensures reopened { IfOk result (ReopensFiles D.Disk files approval_if_new) }
        ensures plain { IfOk result (λ desk. BeginsPlain (image_of D.Disk files) approval_if_new desk.store.calls.conn) }
        ensures refused { IfErr result (LeavesFiles D.Disk files approval_if_new) }
    {
        match reopen_files(alloc, files, options, approval_if_new) {
            Ok(conn) => Ok(Desk::over(alloc, DeskStore::new(alloc, conn))),
            Err(refused) => Err(refused),
        }
    }

    /// Gives the files back, with all that was committed in the database file. Commits nothing. Where that fails it gives the
    /// store back, of which a crash leaves no more than before.
    pub fn into_files(self) -> Result<Files<D>, (Error, FileStore<D>)>
        ensures usable { IfOk result (λ files. IsTrue (D.Disk.is_usable files.log) × IsTrue (D.Disk.is_usable files.db)) }
        ensures given { IfOk result (λ files. AreClean D.Disk files.log files.db → GivesBack D.Disk (desk_state over_files self) files) }
        ensures kept { IfErr result (λ e. (db : _) → recovers e.1 db → (desk_state over_files self).may_leave db) }
    {
        let Desk { store, .. } = self;
        store.into_connection().close_files()
    }
}

/// A law: whatever a crash leaves of a desk's files, a desk that is reopened over it with success stands for the list that a file which the
/// crash may leave holds. The old
/// desk is given up for it, since `sqlite` tells only of a store that is given up how it numbers its tables; its files come back as they
/// are, and commit nothing.
pub fn goes_on_after_crash<D: Disk + Drop, S: Alter>(
    old: Desk<FileStore<D>>,
    new: &Desk<S>,
) -> Files<D>
    ensures before { AreClean D.Disk result.log result.db → GoesOnAfterCrash old (desk_state S.Store new.now) }
    ensures after { AreClean D.Disk result.log result.db → GoesOnOver (outcomes D.Disk result.log result.db) (desk_state over_files old)
        (desk_state S.Store new.now) }
{
    let Desk { store, .. } = old;
    store.into_connection().into_store().close()
}

impl<S: Start> Desk<FileStore<FileFrom<S>>> {
    /// The same for the file at a path, with its log beside it, or with a `NoFile` where none was opened. A file that another process holds
    /// is refused as `Store`.
    pub fn reopen_path(
        rt: &HostRuntime,
        path: &str,
        start: S,
        approval_if_new: bool,
    ) -> Result<Desk<FileStore<FileFrom<S>>>, (OpenFault, PathLeftover<FileFrom<S>>)>
        ensures reopened { IfOk result (λ desk. ReopensDesk (image_at S.Start) (desk_state over_files desk) approval_if_new) }
        ensures plain { IfOk result (λ desk. BeginsPlain (image_at S.Start) approval_if_new desk.store.calls.conn) }
        ensures refused { IfErr result (λ e. LeavesPath (image_at S.Start) approval_if_new e.0 e.1) }
    {
        match reopen_path(rt, path, start, approval_if_new) {
            Ok(conn) => {
                let alloc = rt.alloc();
                Ok(Desk::over(alloc, DeskStore::new(alloc, conn)))
            }
            Err(refused) => Err(refused),
        }
    }
}

impl Desk<MemStore> {
    /// A new desk in memory. Refused for want of memory or by the store alone.
    pub fn in_memory(alloc: Global, approval: bool) -> Result<Desk<MemStore>, OpenFault>
        ensures refused { IfErr result IsFailure }
        ensures made { IfOk result (λ desk. StandsFor (desk_state over_memory desk) (Make approval)) }
    {
        let Ok(conn) = Connection::open_in_memory(alloc) else {
            return Err(OpenFault::Memory);
        };
        match open_desk(alloc, conn, approval) {
            Ok(conn) => Ok(Desk::over(alloc, DeskStore::new(alloc, conn))),
            Err((fault, _)) => Err(fault),
        }
    }
}
