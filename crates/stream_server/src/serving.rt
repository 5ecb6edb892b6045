//! Serving one stream of an interface.

ghost use Rattle.std.specs.Prelude.{◌≡◌, true, IfErr};
ghost use Rattle.http_wire.specs.Watched.{inner_of, has_failed};
ghost use Rattle.rollout_machine.specs.CommandList.{CommandList};
ghost use Rattle.rollout_machine.specs.Standing.{StandsFor};
ghost use Rattle.stream_server.specs.Headline.{FailsBy, Headline, StoppedThroughout};
ghost use Rattle.stream_server.specs.Parts.{ServesStream};

use crate::routes::Routes;
use crate::stream::serve_stream;
use crate::{Interface, ServeFault, Served};
use http_wire::Watched;
use request_handler::ContentsHandler;
use std::alloc::Global;
use std::io::{Read, Write};

/// Makes the routes and serves the stream.
fn serve_interface<R: Read, W: Write, D: ContentsHandler>(
    alloc: Global,
    desk: &mut D,
    reader: &mut Watched<R>,
    writer: &mut Watched<W>,
    interface: Interface,
) -> Result<Served, ServeFault>
    ensures serves { ServesStream interface (D.state desk.old) (D.state desk.new) (R.remaining (inner_of reader.old)) (R.remaining (inner_of reader.new))
        (W.contents (inner_of writer.old)) (W.contents (inner_of writer.new)) result }
    ensures read_failed { FailsBy result ServeFault.Read (has_failed reader.old) (has_failed reader.new) }
    ensures write_failed { FailsBy result ServeFault.Write (has_failed writer.old) (has_failed writer.new) }
    ensures stops { IfErr result (λ fault. fault ≡ ServeFault.Store → (D.state desk.new).is_stopped ≡ true) }
{
    let Ok(routes) = Routes::make(alloc, interface) else {
        return Err(ServeFault::Memory);
    };
    serve_stream(alloc, desk, &routes, reader, writer)
}

/// Answers the messages of a stream from a desk, each as soon as it is whole: its reply is written and flushed before the next read,
/// and a command's reply only after its commit. A stopped desk refuses each message.
pub fn serve<R: Read, W: Write, D: ContentsHandler>(
    alloc: Global,
    desk: &mut D,
    reader: &mut Watched<R>,
    writer: &mut Watched<W>,
    interface: Interface,
) -> Result<Served, ServeFault>
    ensures clean { (D.state desk.new).is_clean → (D.state desk.old).is_clean }
    ensures headline { (h : CommandList) → (D.state desk.new).is_clean → StandsFor (D.state desk.old) h
        → Headline interface h (D.state desk.new) (R.remaining (inner_of reader.old)) (R.remaining (inner_of reader.new))
        (W.contents (inner_of writer.old)) (W.contents (inner_of writer.new)) result }
    ensures stopped { (D.state desk.old).is_stopped ≡ true
        → StoppedThroughout (D.state desk.old) (D.state desk.new) (R.remaining (inner_of reader.old)) (R.remaining (inner_of reader.new))
        (W.contents (inner_of writer.old)) (W.contents (inner_of writer.new)) result }
    ensures read_failed { FailsBy result ServeFault.Read (has_failed reader.old) (has_failed reader.new) }
    ensures write_failed { FailsBy result ServeFault.Write (has_failed writer.old) (has_failed writer.new) }
    ensures stops { IfErr result (λ fault. fault ≡ ServeFault.Store → (D.state desk.new).is_stopped ≡ true) }
{
    serve_interface(alloc, desk, reader, writer, interface)
}
