//! Serving one stream.

ghost use Rattle.std.specs.Prelude.{◌≡◌, ◌≢◌, ℕ, ◌+◌, ◌++◌, ◌<◌, ◌≤◌, ◌-◌, ◌^◌, List, length, true, IfErr};
ghost use Rattle.http_wire.specs.Watched.{inner_of, has_failed};
ghost use Rattle.stream_server.specs.Headline.{FailsBy};
ghost use Rattle.stream_server.specs.Parts.{ServesStream};
ghost use Rattle.stream_server.specs.private.Reading.{ReadsOn};

use crate::answer::answer_all;
use crate::reply::write_refusal;
use crate::routes::Routes;
use crate::{ServeFault, Served};
use http_wire::{End, Inbox, Watched};
use request_handler::ContentsHandler;
use std::alloc::Global;
use std::io::{Read, Write};

/// How many bytes are asked of the reader at a time.
const PIECE: usize = 4096;

/// Reads the next piece into the inbox, or says that nothing is left.
fn read_on<R: Read>(reader: &mut Watched<R>, inbox: &mut Inbox) -> Result<bool, ServeFault>
    ensures failed { FailsBy result ServeFault.Read (has_failed reader.old) (has_failed reader.new) }
    ensures read { ReadsOn (R.remaining (inner_of reader.old)) (R.remaining (inner_of reader.new)) inbox.old inbox.new (has_failed reader.new) result }
    ensures no_store { IfErr result (λ fault. fault ≢ ServeFault.Store) }
{
    let mut buffer = [0; PIECE];
    let Ok(count) = reader.read(&mut buffer) else {
        return Err(ServeFault::Read);
    };
    if count == 0 {
        return Ok(false);
    }
    let Ok(()) = inbox.feed(&buffer[..count]) else {
        return Err(ServeFault::Memory);
    };
    Ok(true)
}

/// Answers the messages of a stream as they come, until it ends or a fault stands in a message's place.
pub(crate) fn serve_stream<R: Read, W: Write, D: ContentsHandler>(
    alloc: Global,
    desk: &mut D,
    routes: &Routes,
    reader: &mut Watched<R>,
    writer: &mut Watched<W>,
) -> Result<Served, ServeFault>
    ensures serves { ServesStream routes.now.interface (D.state desk.old) (D.state desk.new) (R.remaining (inner_of reader.old))
        (R.remaining (inner_of reader.new))
        (W.contents (inner_of writer.old)) (W.contents (inner_of writer.new)) result }
    ensures read_failed { FailsBy result ServeFault.Read (has_failed reader.old) (has_failed reader.new) }
    ensures write_failed { FailsBy result ServeFault.Write (has_failed writer.old) (has_failed writer.new) }
    ensures stops { IfErr result (λ fault. fault ≡ ServeFault.Store → (D.state desk.new).is_stopped ≡ true) }
{
    let mut inbox = Inbox::new(alloc);
    let mut answered = 0;
    for _ in 0..u64::MAX {
        let stop = answer_all(alloc, desk, routes, &mut inbox, writer, answered)?;
        answered = stop.answered;
        if let Some(fault) = stop.fault {
            let end = End::Fault(fault);
            write_refusal(writer, fault.refusal())?;
            return Ok(Served { answered, end });
        }
        if !read_on(reader, &mut inbox)? {
            let end = if inbox.is_empty() {
                End::Input
            } else {
                End::Cut
            };
            return Ok(Served { answered, end });
        }
    }
    Ok(Served {
        answered,
        end: End::Cut,
    })
}
