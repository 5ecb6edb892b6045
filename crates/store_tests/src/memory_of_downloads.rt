//! A download of two pieces where a request for memory may be refused: `tests/fault/oom` refuses each in turn. A piece for
//! which memory was wanting is the next one again.

use super::asked::{adds_artifact, adds_module, asks_contents, some_bytes};
use super::told::{does, download, new_desk, next_piece, refusal_in};
use rollout_desk::{Desk, Download};
use rollout_model::{Command, Query, Refusal};
use sqlite::Alter;
use std::alloc::Global;

/// The bytes of every piece but the last.
const PIECE: usize = 65_536;

fn two_pieces(alloc: Global) -> Option<Vec<u8>> {
    some_bytes(alloc, PIECE + 1)
}

/// Adds an artifact of two pieces.
fn uploads(alloc: Global) -> Option<Command> {
    adds_artifact("abc.bin", two_pieces(alloc)?)
}

/// Whether the next piece of a download is these bytes; or no piece where these are none.
fn hands_out<S: Alter>(
    desk: &mut Desk<S>,
    download: &mut Download,
    wanted: &[u8],
) -> Result<bool, Refusal> {
    match next_piece(desk, download) {
        Ok(Some(piece)) => Ok(!wanted.is_empty() && piece.as_slice() == wanted),
        Ok(None) => Ok(wanted.is_empty()),
        Err(refusal) => Err(refusal),
    }
}

/// Whether the next piece is these bytes, if need be the second time; or the desk refuses everything, since memory was wanting for a
/// rollback.
fn hands_out_at_last<S: Alter>(desk: &mut Desk<S>, download: &mut Download, wanted: &[u8]) -> bool {
    let mut handed = hands_out(desk, download, wanted);
    if handed == Err(Refusal::NoMemory) {
        handed = hands_out(desk, download, wanted);
    }
    match handed {
        Ok(is_right) => is_right,
        Err(refusal) => refusal != Refusal::NoMemory && desk.stopped(),
    }
}

/// Whether a download hands out the bytes in two pieces, and no more then.
fn hands_all_out<S: Alter>(desk: &mut Desk<S>, mut download: Download, contents: &[u8]) -> bool {
    let (first, second) = contents.split_at(contents.len().min(PIECE));
    hands_out_at_last(desk, &mut download, first)
        && hands_out_at_last(desk, &mut download, second)
        && hands_out_at_last(desk, &mut download, &[])
}

/// A download, or why there is none.
fn begin<S: Alter>(desk: &mut Desk<S>, query: &Query) -> Result<Download, Option<Refusal>> {
    match download(desk, query) {
        Ok(download) => Ok(download),
        Err(reply) => Err(refusal_in(&reply)),
    }
}

/// The same, a second time where memory was wanting.
fn begin_at_last<S: Alter>(desk: &mut Desk<S>, query: &Query) -> Result<Download, Option<Refusal>> {
    match begin(desk, query) {
        Err(Some(Refusal::NoMemory)) => begin(desk, query),
        begun => begun,
    }
}

/// Whether the artifact comes back; or none is there, since memory was wanting before.
fn comes_back<S: Alter>(desk: &mut Desk<S>, query: &Query, contents: &[u8]) -> bool {
    match begin_at_last(desk, query) {
        Ok(download) => hands_all_out(desk, download, contents),
        Err(refusal) => refusal == Some(Refusal::NotFound) || desk.stopped(),
    }
}

#[test]
fn each_piece_is_handed_out_or_wants_memory(rt: HostRuntime) {
    let Some(query) = asks_contents() else {
        return;
    };
    let Some(contents) = two_pieces(rt.alloc()) else {
        return;
    };
    if let Some(mut desk) = new_desk(rt.alloc()) {
        let _ = does(&mut desk, adds_module(rt.alloc()));
        let _ = does(&mut desk, uploads(rt.alloc()));
        assert!(rt; comes_back(&mut desk, &query, &contents));
    }
}
