//! The machine that an order is carried out on.

ghost use Rattle.std.specs.Prelude.{ℕ, Bool, List, Option, IfOk, IfErr, option_map, vec_items};
ghost use Rattle.std.specs.Net.Addr.{ipv4_octets};
ghost use Rattle.sqlite.specs.Files.{over_files};
ghost use Rattle.sqlite.specs.Recovery.{Image};
ghost use Rattle.rollout_desk.specs.DeskStates.{desk_state};
ghost use Rattle.desk_opening.specs.Reopening.{LeavesPath};
ghost use Rattle.rollout_desk.specs.Openings.{ReopensDesk};
ghost use Rattle.desk_server.specs.Refusals.{PathRefusal, refusal_of};

use desk_opening::{OpenFault, PathLeftover};
use rollout_desk::Desk;
use sqlite::FileStore;
use sqlite_disk::Disk;
use std::alloc::Global;
use std::net::Ipv4Addr;
use stream_server::Connections;

/// The files and the network of a machine, as the program sees them.
pub trait Host {
    /// What is supposed of the files of the one desk that is opened.
    type Start;

    /// A file that a database or its log is kept in.
    type Disk: Disk + Drop;

    /// The connections to a port.
    type Listener: Connections + Drop;

    /// What the database at a path and its log held as they were opened.
    ghost image: { List ℕ → Image };

    /// Why the desk at a path, with approval where it is new, couldn't be opened.
    ghost refuses: { List ℕ → Bool → PathRefusal Self.Disk → Type 0 };

    /// The file at a path has these first bytes, or it can't be read.
    ghost reads: { List ℕ → Option (List ℕ) → Type 0 };

    /// A port of an address was taken, and these are its connections; or it wasn't.
    ghost listens: { List ℕ → ℕ → Option Self.Listener → Type 0 };

    /// Opens the desk in the database at a path, with the log beside it. A desk that is made for it asks for approval where it is told so.
    /// A refusal comes with what is left of the files.
    fn open(
        &mut self,
        path: &str,
        start: Self::Start,
        approval_if_new: bool,
    ) -> Result<Desk<FileStore<Self::Disk>>, (OpenFault, PathLeftover<Self::Disk>)>
        ensures opened { IfOk result (λ desk. ReopensDesk (image path.now) (desk_state over_files desk) approval_if_new) }
        ensures refused { IfErr result (λ e. LeavesPath (image path.now) approval_if_new e.0 e.1) }
        ensures told { IfErr result (λ e. refuses path.now approval_if_new (refusal_of e)) };

    /// The first bytes of the file at a path, by which one that is too large is known as such. None where it can't be read.
    fn read(&mut self, alloc: Global, path: &str) -> Option<Vec<u8>>
        ensures { reads path.now (option_map vec_items result) };

    /// Takes a port of an address. None where that isn't possible.
    fn listen(&mut self, address: Ipv4Addr, port: u16) -> Option<Self::Listener>
        ensures { listens (ipv4_octets address) port result };
}
