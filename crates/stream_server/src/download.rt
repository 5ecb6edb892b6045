//! Replies with contents, piece by piece.

ghost use Rattle.std.specs.Prelude.{◌≡◌, ◌≢◌, true, IfOk, IfErr};
ghost use Rattle.http_wire.specs.Watched.{inner_of, has_failed};
ghost use Rattle.rollout_model.specs.declared.refusal.Refusal.TheVariants.{StoreFailed};
ghost use Rattle.stream_server.specs.private.Contents.{SendsContents, contents_head, download_fault};
ghost use Rattle.stream_server.specs.Headline.{FailsBy};
ghost use Rattle.stream_server.specs.Parts.{fault_of};

use crate::ServeFault;
use crate::reply::send;
use http_wire::Watched;
use itoa::Buffer;
use request_handler::{ContentsHandler, Download};
use rollout_machine::is_failed_store;
use rollout_model::Refusal;
use std::alloc::{AllocError, Global};
use std::io::Write;

/// What stands before the number of bytes of contents.
const BEFORE_SIZE: &[u8] =
    b"HTTP/1.1 200 OK\r\nContent-Type: application/octet-stream\r\nContent-Length: ";

/// The head of a reply with so many bytes of contents.
fn contents_head(alloc: Global, size: u32) -> Result<Vec<u8>, AllocError>
    ensures { IfOk result (λ head. head.items ≡ contents_head size) }
{
    let mut head = Vec::from_slice(alloc, BEFORE_SIZE)?;
    let mut buffer = Buffer::new();
    head.extend_from_slice(buffer.format(size).as_bytes())?;
    head.extend_from_slice(b"\r\n\r\n")?;
    Ok(head)
}

/// Why a download is interrupted.
fn fault_at(refusal: Refusal) -> ServeFault
    ensures is { result ≡ download_fault refusal }
    ensures only { result ≡ ServeFault.Store → refusal ≡ StoreFailed }
{
    if is_failed_store(refusal) {
        ServeFault::Store
    } else {
        ServeFault::Memory
    }
}

/// Writes the reply with the contents of a download: its head, and then each piece as the desk hands it out.
pub(crate) fn send_contents<W: Write, D: ContentsHandler>(
    alloc: Global,
    desk: &mut D,
    writer: &mut Watched<W>,
    download: Download,
) -> Result<(), ServeFault>
    ensures clean { (D.state desk.new).is_clean → (D.state desk.old).is_clean }
    ensures sends { SendsContents (D.state desk.old) (D.state desk.new) (W.contents (inner_of writer.old))
        (W.contents (inner_of writer.new)) download (fault_of result) }
    ensures write_failed { FailsBy result ServeFault.Write (has_failed writer.old) (has_failed writer.new) }
    ensures reads_nothing { IfErr result (λ fault. fault ≢ ServeFault.Read) }
    ensures stops { IfErr result (λ fault. fault ≡ ServeFault.Store → (D.state desk.new).is_stopped ≡ true) }
{
    let Ok(head) = contents_head(alloc, download.size()) else {
        return Err(ServeFault::Memory);
    };
    send(writer, head.as_slice())?;
    let mut rest = download;
    loop {
        match desk.next_piece(&mut rest) {
            Ok(Some(piece)) => send(writer, piece.as_slice())?,
            Ok(None) => return Ok(()),
            Err(refusal) => return Err(fault_at(refusal)),
        }
    }
}
