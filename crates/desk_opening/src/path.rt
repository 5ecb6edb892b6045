//! The files at a path, opened or not.

ghost use Rattle.std.specs.Prelude.{◌≡◌, Bool, false, IfOk, IfErr};
ghost use Rattle.sqlite.specs.State.{HasCleanDisk};
ghost use Rattle.sqlite.specs.Start.{FindsIn};
ghost use Rattle.sqlite.specs.FileStore.{view};
ghost use Rattle.sqlite.specs.Files.{file_state, IsBlankAs, IsOpened};
ghost use Rattle.sqlite.specs.WalFiles.{image_at};
ghost use Rattle.desk_opening.specs.Reopening.{LeavesPath};

use crate::opening::OpenFault;
use crate::reopening::{DeskLeftover, refused_open};
use sqlite::{Connection, FileFrom, FileStore, Start};
use sqlite_disk::Disk;
use std::marker::PhantomData;

/// No file of the type `D` was opened. `open_at` alone makes one, and takes the one start of such files for it: who has opened them has none.
#[derive(Drop)]
pub struct NoFile<D> {
    files: PhantomData<D>,
}

/// What is left of the files at a path at which no desk is opened.
#[derive(Drop)]
pub enum PathLeftover<D: Disk> {
    NoFile(NoFile<D>),
    Opened(DeskLeftover<D>),
}

/// Opens the database at a path, with its log beside it. A new file gets no sums.
pub fn open_at<S: Start>(
    rt: &HostRuntime,
    path: &str,
    start: S,
) -> Result<Connection<FileStore<FileFrom<S>>>, (OpenFault, PathLeftover<FileFrom<S>>)>
    ensures opened { IfOk result (λ conn. HasCleanDisk (file_state conn) → IsOpened conn) }
    ensures found { IfOk result (λ conn. HasCleanDisk (file_state conn) → FindsIn (image_at S.Start) (file_state conn)) }
    ensures plain { IfOk result (λ conn. HasCleanDisk (file_state conn) → IsBlankAs false (image_at S.Start) → (view conn.store).has_sums ≡ false) }
    ensures refused { IfErr result (λ e. (approval : Bool) → LeavesPath (image_at S.Start) approval e.0 e.1) }
{
    match Connection::open_from(rt, path, false, start) {
        Ok(conn) => Ok(conn),
        Err((error, Some(left))) => Err((
            refused_open(error),
            PathLeftover::Opened(DeskLeftover::Unopened(left)),
        )),
        Err((error, None)) => Err((
            refused_open(error),
            PathLeftover::NoFile(NoFile { files: PhantomData }),
        )),
    }
}
