//! Carrying an order out, from the opening of its desk to the exit status.

ghost use Rattle.rollout_desk.specs.DeskStates.{desk_state};
ghost use Rattle.desk_server.specs.Carrying.{CarriesOutOrder, Does, ImportsFile, ServesPort, seen};
ghost use Rattle.desk_server.specs.Program.{network};

use crate::host::Host;
use crate::import::import_given;
use crate::program::{FAILED, listen_address, open_line, run, serve_on_port, tell};
use crate::report::report;
use crate::verify::verify;
use command_line::{Order, Setup};
use desk_opening::{OpenFault, PathLeftover};
use http_wire::Watched;
use rollout_desk::Desk;
use sqlite::{Alter, FileStore};
use sqlite_disk::Disk;
use std::alloc::Global;
use std::io::{Read, Write};

/// Takes the port and serves its connections.
fn serve_port<H: Host, E: Write, S: Alter>(
    alloc: Global,
    host: &mut H,
    setup: &Setup<'_>,
    port: u16,
    connections: u32,
    desk: &mut Desk<S>,
    errors: &mut Watched<E>,
) -> u8
    ensures { ServesPort H.listens (network H.Listener.has_seen H.Listener.has_failed) port setup.now.interface connections
        (desk_state S.Store desk.old) (desk_state S.Store desk.new)
        (seen E.contents errors.old) (seen E.contents errors.new) result }
{
    let (address, port) = listen_address(port);
    let mut listener = host.listen(address, port);
    serve_on_port(
        alloc,
        desk,
        setup.interface,
        &mut listener,
        connections,
        errors,
    )
}

/// Reads the file and puts its targets.
fn import_file<H: Host, W: Write, E: Write, S: Alter>(
    alloc: Global,
    host: &mut H,
    path: &str,
    desk: &mut Desk<S>,
    output: &mut Watched<W>,
    errors: &mut Watched<E>,
) -> u8
    ensures { ImportsFile H.reads path.now (desk_state S.Store desk.old) (desk_state S.Store desk.new)
        (seen W.contents output.old) (seen W.contents output.new) (seen E.contents errors.old) (seen E.contents errors.new) result }
{
    let file = host.read(alloc, path);
    import_given(alloc, desk, file.as_deref(), output, errors)
}

/// Carries an order out over its desk.
fn carry_out_over<H: Host, R: Read, W: Write, E: Write, S: Alter>(
    alloc: Global,
    order: &Order<'_>,
    host: &mut H,
    desk: &mut Desk<S>,
    input: &mut Watched<R>,
    output: &mut Watched<W>,
    errors: &mut Watched<E>,
) -> u8
    ensures { Does S.Store H.reads H.listens (network H.Listener.has_seen H.Listener.has_failed) order.now desk.old desk.new
        (seen R.remaining input.old) (seen R.remaining input.new)
        (seen W.contents output.old) (seen W.contents output.new) (seen E.contents errors.old) (seen E.contents errors.new) result }
{
    match order {
        Order::Run(setup) => run(alloc, setup, desk, input, output, errors),
        Order::Serve {
            setup,
            port,
            connections,
        } => serve_port(alloc, host, setup, *port, *connections, desk, errors),
        Order::Import { file, .. } => import_file(alloc, host, file, desk, output, errors),
        Order::Report { rollout, .. } => report(alloc, desk, *rollout, output, errors),
        Order::Verify { .. } => verify(desk, output, errors),
    }
}

/// An order that was carried out: the exit status, and the order's desk as it was left. Where none was opened, what is left of its files.
/// Nothing can be done to either any more but to let go of it.
#[derive(Drop)]
pub struct CarriedOut<D: Disk + Drop> {
    pub status: u8,
    /// The desk, or why it couldn't be opened and what is left of its files.
    left: Result<Desk<FileStore<D>>, (OpenFault, PathLeftover<D>)>,
}

/// Carries an order out on a machine: opens the order's desk, does what the order asks, and tells what failed.
pub fn carry_out<H: Host, R: Read, W: Write, E: Write>(
    alloc: Global,
    order: &Order<'_>,
    host: &mut H,
    start: H::Start,
    input: &mut Watched<R>,
    output: &mut Watched<W>,
    errors: &mut Watched<E>,
) -> CarriedOut<H::Disk>
    ensures { CarriesOutOrder H.Disk.Disk H.image H.refuses H.reads H.listens
        (network H.Listener.has_seen H.Listener.has_failed) order.now (seen R.remaining input.old) (seen R.remaining input.new)
        (seen W.contents output.old) (seen W.contents output.new) (seen E.contents errors.old) (seen E.contents errors.new) result.status result.left }
{
    match host.open(order.db(), start, order.approval()) {
        Ok(mut desk) => {
            let status = carry_out_over(alloc, order, host, &mut desk, input, output, errors);
            CarriedOut {
                status,
                left: Ok(desk),
            }
        }
        Err(refused) => {
            tell(errors, open_line(refused.0));
            CarriedOut {
                status: FAILED,
                left: Err(refused),
            }
        }
    }
}
