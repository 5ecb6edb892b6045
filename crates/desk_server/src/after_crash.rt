//! What is left of a stream that was served, once the machine has crashed.

ghost use Rattle.sqlite.specs.Files.{over_files};
ghost use Rattle.sqlite.specs.WalFiles.{outcomes};
ghost use Rattle.sqlite.specs.WalReads.{AreClean};
ghost use Rattle.rollout_desk.specs.DeskStates.{desk_state};
ghost use Rattle.rollout_desk.specs.Openings.{may_leave_files};
ghost use Rattle.desk_server.specs.AfterCrash.{KeepsHeadline};

use rollout_desk::{Desk, goes_on_after_crash};
use sqlite::{Alter, FileStore, Files};
use sqlite_disk::Disk;

/// A law, the headline's end: of a desk that a stream was served from, reopened with success over whatever a crash left then. It stands for
/// the list followed by a first
/// part of the accepted commands, in which every acknowledged one is. The desk that was served is given up for it, as in `goes_on_after_crash`.
pub fn headline_after_crash<D: Disk + Drop, S: Alter>(
    served: Desk<FileStore<D>>,
    reopened: &Desk<S>,
) -> Files<D>
    ensures before { AreClean D.Disk result.log result.db → KeepsHeadline (may_leave_files served) (desk_state over_files served)
        (desk_state S.Store reopened.now) }
    ensures after { AreClean D.Disk result.log result.db
        → KeepsHeadline (outcomes D.Disk result.log result.db) (desk_state over_files served) (desk_state S.Store reopened.now) }
{
    goes_on_after_crash(served, reopened)
}
