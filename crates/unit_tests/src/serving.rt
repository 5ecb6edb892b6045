//! Streams served from a desk of which no contract says anything.

ghost use Rattle.std.specs.Prelude.{◌≡◌, ◌≢◌, IfErr};
ghost use Rattle.rollout_model.specs.declared.refusal.Refusal.TheVariants.{StoreFailed};

use http_wire::Watched;
use request_handler::{Answered, ContentsHandler, Download, Handler};
use rollout_model::{Command, Module, ModuleLabel, ModuleNo, Query, Refusal, Reply, Request};
use std::alloc::Global;
use std::io;
use std::io::Write;
use stream_server::{End, Interface, ServeFault, Served, serve};

/// What a desk counted of its database.
#[derive(Clone, Copy)]
struct Counts {
    statements: u64,
    rows: u64,
    failures: u64,
}

/// A shelf has no database.
const NONE: Counts = Counts {
    statements: 0,
    rows: 0,
    failures: 0,
};

/// Adds one module, and says of each further one that it is there.
#[derive(Drop)]
struct Shelf {
    is_full: bool,
    counts: Counts,
    alloc: Global,
}

impl Shelf {
    fn add(&mut self, label: &ModuleLabel) -> Result<Module, Refusal>
        ensures refuses { IfErr result (λ refusal. refusal ≢ StoreFailed) }
        ensures counts { self.new.counts ≡ self.old.counts }
    {
        if self.is_full {
            return Err(Refusal::Exists);
        }
        let label = label.copy(self.alloc)?;
        let number = ModuleNo::new(1).ok_or(Refusal::Quota)?;
        self.is_full = true;
        Ok(Module {
            number,
            locked: false,
            label,
        })
    }
}

impl Handler for Shelf {
    ghost use Rattle.std.specs.Prelude.{⊤, refl};
    ghost use Rattle.unit_tests.specs.Unknown.{unknown};

    ghost File = { ⊤ };

    ghost state = { λ _. unknown };

    ghost statements = { λ shelf. shelf.counts.statements };

    ghost rows = { λ shelf. shelf.counts.rows };

    ghost failures = { λ shelf. shelf.counts.failures };

    fn handle(&mut self, request: &Request) -> Reply {
        let added = match request {
            Request::Do(Command::AddModule(label)) => self.add(label),
            _ => Err(Refusal::NotFound),
        };
        match added {
            Ok(module) => Reply::ModuleAdded(module),
            Err(refusal) => Reply::Refused(refusal),
        }
    }

    fn is_stopped(&self) -> bool {
        false
    }

    ghost counts = { λ shelf s r f. (record shelf { counts = record { statements = s; rows = r; failures = f } }, λ h stands. stands, refl, refl, refl) };
}

impl ContentsHandler for Shelf {
    fn begin_download(&mut self, _query: &Query) -> Answered {
        Answered::Reply(Reply::Refused(Refusal::NotFound))
    }

    fn next_piece(&mut self, _download: &mut Download) -> Result<Option<Vec<u8>>, Refusal> {
        Err(Refusal::NotFound)
    }
}

const ADD: &[u8] =
    b"POST /rest/v1/softwaremodules HTTP/1.1\r\nContent-Length: 44\r\n\r\n[{\"name\":\"app\",\"type\":\"os\",\"version\":\"1.0\"}]";

const ADDED: &[u8] =
    b"HTTP/1.1 201 Created\r\nContent-Type: application/json\r\nContent-Length: 66\r\n\r\n\
      [{\"id\":1,\"locked\":false,\"name\":\"app\",\"type\":\"os\",\"version\":\"1.0\"}]";

/// Whether so many messages were served of a stream that ended behind the last one, or within one.
fn is_served(served: Result<Served, ServeFault>, answered: u64, is_cut: bool) -> bool {
    match served {
        Ok(served) => served.answered == answered && is_ended(served.end, is_cut),
        Err(_) => false,
    }
}

fn is_ended(end: End, is_cut: bool) -> bool {
    match end {
        End::Input => !is_cut,
        End::Cut => is_cut,
        End::Fault(_) => false,
    }
}

/// Serves a stream to a new shelf, and whether its first reply was written where there is one.
fn serves(alloc: Global, input: &[u8], answered: u64, is_cut: bool) -> bool {
    let mut shelf = Shelf {
        is_full: false,
        counts: NONE,
        alloc,
    };
    let mut output: Vec<u8> = Vec::new(alloc);
    let served = serve(
        alloc,
        &mut shelf,
        &mut Watched::new(input),
        &mut Watched::new(&mut output),
        Interface::Management,
    );
    is_served(served, answered, is_cut) && (answered == 0 || output.as_slice().starts_with(ADDED))
}

/// Two messages, one after the other; `None` for want of memory.
fn two_adds(alloc: Global) -> Option<Vec<u8>> {
    let mut both = Vec::from_slice(alloc, ADD).ok()?;
    both.extend_from_slice(ADD).ok()?;
    Some(both)
}

/// How many messages so many bytes of the two are, and whether they end within one.
fn end_after(count: usize) -> (u64, bool) {
    match count.checked_sub(ADD.len()) {
        None => (0, count > 0),
        Some(rest) => (
            if rest < ADD.len() { 1 } else { 2 },
            rest > 0 && rest != ADD.len(),
        ),
    }
}

/// Whether the first so many bytes are served as they have to be.
fn serves_first(alloc: Global, both: &[u8], count: usize) -> bool {
    let (part, _) = both.split_at(count.min(both.len()));
    let (answered, is_cut) = end_after(count);
    serves(alloc, part, answered, is_cut)
}

/// After how many bytes of the two messages a stream is served otherwise than it has to be, if any.
fn first_wrong(alloc: Global, both: &[u8]) -> Option<usize> {
    for count in 0..=both.len() {
        if !serves_first(alloc, both, count) {
            return Some(count);
        }
    }
    None
}

#[test]
fn streams_that_end_early(rt: HostRuntime) {
    match two_adds(rt.alloc()) {
        Some(both) => assert!(rt; first_wrong(rt.alloc(), &both).is_none()),
        None => assert!(rt; false, "memory"),
    }
}

/// Takes all, and fails at a flush.
#[derive(Drop)]
struct Stuck<'a> {
    taken: &'a mut Vec<u8>,
}

impl<'a> Write for Stuck<'a> {
    fn write(&mut self, buf: &[u8]) -> io::Result<usize> {
        self.taken.write(buf)
    }

    fn flush(&mut self) -> io::Result<()> {
        Err(io::Error::from(io::ErrorKind::BrokenPipe))
    }
}

#[test]
fn a_flush_that_fails(rt: HostRuntime) {
    let alloc = rt.alloc();
    let mut shelf = Shelf {
        is_full: false,
        counts: NONE,
        alloc,
    };
    let mut taken: Vec<u8> = Vec::new(alloc);
    let served = serve(
        alloc,
        &mut shelf,
        &mut Watched::new(ADD),
        &mut Watched::new(Stuck { taken: &mut taken }),
        Interface::Management,
    );
    assert!(rt; matches!(served, Err(ServeFault::Write)));
    assert!(rt; taken.as_slice() == ADDED);
    assert!(rt; shelf.is_full);
}
