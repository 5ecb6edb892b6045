//! What the program does with an order.

ghost use Rattle.std.specs.Prelude.{◌≡◌, ◌++◌, ◌∷◌, ℕ, List, [], true, Result, IfErr};
ghost use Rattle.std.specs.Net.Addr.{ipv4_octets};
ghost use Rattle.http_wire.specs.Watched.{inner_of, has_failed};
ghost use Rattle.stream_server.specs.declared.served.Served.{Served as Outcome};
ghost use Rattle.stream_server.specs.declared.served.ServeFault.{ServeFault as Fault};
ghost use Rattle.stream_server.specs.Headline.{FailsBy};
ghost use Rattle.desk_server.specs.Program.{fault_line, open_line, listen_line, status_of, Tells, Reports, CarriesOut, Listens, CarriesOutOn, network};
ghost use Rattle.stream_server.specs.Parts.{ServesStream};

use crate::Setup;
use desk_opening::OpenFault;
use http_wire::{Watched, write_all_counted};
use rollout_desk::Desk;
use sqlite::Alter;
use std::alloc::Global;
use std::io::{Read, Write};
use std::net::Ipv4Addr;
use stream_server::{
    Connections, ContentsHandler, Interface, ListenFault, ServeFault, serve, serve_on,
};

/// The exit status of what was done.
pub(crate) const DONE: u8 = 0;

/// The exit status of what failed.
pub(crate) const FAILED: u8 = 1;

pub(crate) fn fault_line(fault: ServeFault) -> &'static [u8]
    ensures { result.now ≡ fault_line fault }
{
    match fault {
        ServeFault::Read => b"fault 1 read\n",
        ServeFault::Write => b"fault 2 write\n",
        ServeFault::Store => b"fault 3 store\n",
        ServeFault::Memory => b"fault 4 memory\n",
    }
}

pub(crate) fn open_line(fault: OpenFault) -> &'static [u8]
    ensures { result.now ≡ open_line fault }
{
    match fault {
        OpenFault::NotDesk => b"open 1 not_desk\n",
        OpenFault::NewerVersion => b"open 2 newer_version\n",
        OpenFault::Memory => b"open 3 memory\n",
        OpenFault::Store => b"open 4 store\n",
    }
}

fn listen_line(fault: ListenFault) -> &'static [u8]
    ensures { result.now ≡ listen_line fault }
{
    match fault {
        ListenFault::Store => b"fault 3 store\n",
        ListenFault::Net => b"fault 5 net\n",
    }
}

/// Writes a line, or a beginning of it where a write fails: there is nobody left to tell.
pub(crate) fn tell<E: Write>(errors: &mut Watched<E>, line: &[u8])
    ensures { Tells (E.contents (inner_of errors.old)) (E.contents (inner_of errors.new)) (has_failed errors.new) line.now }
{
    let Ok(()) = write_all_counted(errors, line) else {
        return;
    };
    let _flushed = errors.flush();
}

/// Serves the input to the output, and tells of a fault.
fn serve_input<R: Read, W: Write, E: Write, D: ContentsHandler>(
    alloc: Global,
    desk: &mut D,
    interface: Interface,
    input: &mut Watched<R>,
    output: &mut Watched<W>,
    errors: &mut Watched<E>,
) -> u8
    ensures { (outcome : Result Outcome Fault)
        × ServesStream interface (D.state desk.old) (D.state desk.new) (R.remaining (inner_of input.old)) (R.remaining (inner_of input.new))
        (W.contents (inner_of output.old)) (W.contents (inner_of output.new)) outcome
        × IfErr outcome (λ fault. fault ≡ ServeFault.Store → (D.state desk.new).is_stopped ≡ true)
        × (result ≡ status_of outcome) × Reports (E.contents (inner_of errors.old)) (E.contents (inner_of errors.new)) (has_failed errors.new) outcome
        × FailsBy outcome ServeFault.Read (has_failed input.old) (has_failed input.new)
        × FailsBy outcome ServeFault.Write (has_failed output.old) (has_failed output.new) }
{
    match serve(alloc, desk, input, output, interface) {
        Ok(_) => DONE,
        Err(fault) => {
            tell(errors, fault_line(fault));
            FAILED
        }
    }
}

/// Carries the order `run` out.
pub(crate) fn run<R: Read, W: Write, E: Write, S: Alter>(
    alloc: Global,
    setup: &Setup<'_>,
    desk: &mut Desk<S>,
    input: &mut Watched<R>,
    output: &mut Watched<W>,
    errors: &mut Watched<E>,
) -> u8
    ensures { CarriesOut S.Store setup.now desk.old desk.new (R.remaining (inner_of input.old)) (R.remaining (inner_of input.new))
        (W.contents (inner_of output.old)) (W.contents (inner_of output.new))
        (E.contents (inner_of errors.old)) (E.contents (inner_of errors.new)) (has_failed errors.new)
        (has_failed input.old) (has_failed input.new) (has_failed output.old) (has_failed output.new) result }
{
    serve_input(alloc, desk, setup.interface, input, output, errors)
}

/// The address that the order `serve` listens on: this port of 127.0.0.1, which nobody reaches from another machine.
pub(crate) fn listen_address(port: u16) -> (Ipv4Addr, u16)
    ensures local { ipv4_octets result.0 ≡ 127 ∷ 0 ∷ 0 ∷ 1 ∷ [] }
    ensures port { result.1 ≡ port }
{
    (Ipv4Addr::new(127, 0, 0, 1), port)
}

/// Serves the connections to a port, or answers at once where the port wasn't taken.
#[tactic(auto, using(stream_server::proofs::ListenLemmas::keeps_without_net, stream_server::proofs::PartLemmas::stays))]
fn listen<C: Connections, D: ContentsHandler>(
    alloc: Global,
    desk: &mut D,
    interface: Interface,
    listener: &mut Option<C>,
    connections: u32,
) -> Result<u32, ListenFault>
    ensures { Listens (network C.has_seen C.has_failed) interface listener.old listener.new connections
        (D.state desk.old) (D.state desk.new) result }
{
    match listener {
        Some(listener) => serve_on(alloc, desk, listener, connections, interface),
        None => Err(ListenFault::Net),
    }
}

/// Serves the connections, and tells of a fault.
pub(crate) fn serve_on_port<C: Connections, E: Write, D: ContentsHandler>(
    alloc: Global,
    desk: &mut D,
    interface: Interface,
    listener: &mut Option<C>,
    connections: u32,
    errors: &mut Watched<E>,
) -> u8
    ensures { CarriesOutOn (network C.has_seen C.has_failed) interface listener.old listener.new connections (D.state desk.old) (D.state desk.new)
        (E.contents (inner_of errors.old)) (E.contents (inner_of errors.new)) (has_failed errors.new) result }
{
    match listen(alloc, desk, interface, listener, connections) {
        Ok(_) => DONE,
        Err(fault) => {
            tell(errors, listen_line(fault));
            FAILED
        }
    }
}
