//! The machine that the program runs on.

ghost use Rattle.sqlite.specs.WalFiles.{image_at};

use desk_opening::{OpenFault, PathLeftover};
use desk_server::{Host, TcpConnections};
use rollout_desk::Desk;
use rollout_model::limits::FILE_LENGTH_LIMIT;
use sqlite::{FileFrom, FileStore, Start};
use std::alloc::Global;
use std::fs::File;
use std::io;
use std::io::Read;
use std::marker::PhantomData;
use std::net::{Ipv4Addr, TcpListener};

/// How many bytes of a file are read: one more than a file of targets may have.
const READ_LIMIT: u64 = FILE_LENGTH_LIMIT as u64 + 1;

/// The files and the network of the machine that the program runs on. No contract of the standard library says which file a path names, or
/// what an address is: that its methods take what they are given is to be read.
#[derive(Drop)]
pub struct Machine<'a, S> {
    rt: &'a HostRuntime,
    /// What is supposed of the files of the one desk that is opened.
    start: PhantomData<S>,
}

impl<'a, S: Start> Machine<'a, S> {
    pub fn new(rt: &'a HostRuntime) -> Machine<'a, S> {
        Machine {
            rt,
            start: PhantomData,
        }
    }
}

fn first_bytes(rt: &HostRuntime, alloc: Global, path: &str) -> io::Result<Vec<u8>> {
    let mut bytes = Vec::new(alloc);
    File::open(rt, path)?
        .take(READ_LIMIT)
        .read_to_end(&mut bytes)?;
    Ok(bytes)
}

impl<'a, S: Start> Host for Machine<'a, S> {
    type Start = S;

    type Disk = FileFrom<S>;

    type Listener = TcpConnections;

    ghost image = { λ path. image_at S.Start };

    ghost refuses = { λ path approval refusal. Unit {0} };

    ghost reads = { λ path file. Unit {0} };

    ghost listens = { λ address port listener. Unit {0} };

    fn open(
        &mut self,
        path: &str,
        start: S,
        approval_if_new: bool,
    ) -> Result<Desk<FileStore<FileFrom<S>>>, (OpenFault, PathLeftover<FileFrom<S>>)> {
        Desk::reopen_path(self.rt, path, start, approval_if_new)
    }

    fn read(&mut self, alloc: Global, path: &str) -> Option<Vec<u8>> {
        first_bytes(self.rt, alloc, path).ok()
    }

    fn listen(&mut self, address: Ipv4Addr, port: u16) -> Option<TcpConnections> {
        let listener = TcpListener::bind(self.rt, (address, port)).ok()?;
        Some(TcpConnections::new(listener))
    }
}
