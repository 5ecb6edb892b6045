//! Each call of a desk once. None of these has a clause, so that the proof of a test doesn't carry what the desk's clauses say.

use rollout_desk::{Desk, Download};
use rollout_model::{Command, Query, Refusal, Reply, Request};
use sqlite::{Alter, MemStore};
use std::alloc::Global;

pub(super) fn new_desk(alloc: Global) -> Option<Desk<MemStore>> {
    Desk::in_memory(alloc, false).ok()
}

pub(super) fn answer<S: Alter>(desk: &mut Desk<S>, request: &Request) -> Reply {
    desk.answer(request)
}

pub(super) fn run<S: Alter>(
    desk: &mut Desk<S>,
    requests: &[Request],
) -> Result<Vec<Reply>, Refusal> {
    desk.run(requests)
}

pub(super) fn verifies<S: Alter>(desk: &mut Desk<S>) -> bool {
    desk.verify().is_ok()
}

pub(super) fn download<S: Alter>(desk: &mut Desk<S>, query: &Query) -> Result<Download, Reply> {
    desk.download(query)
}

pub(super) fn next_piece<S: Alter>(
    desk: &mut Desk<S>,
    download: &mut Download,
) -> Result<Option<Vec<u8>>, Refusal> {
    desk.next_piece(download)
}

pub(super) fn refusal_in(reply: &Reply) -> Option<Refusal> {
    match reply {
        Reply::Refused(refusal) => Some(*refusal),
        _ => None,
    }
}

/// Whether the desk accepts what it is asked.
fn accepts<S: Alter>(desk: &mut Desk<S>, request: &Request) -> bool {
    refusal_in(&answer(desk, request)).is_none()
}

/// Whether there is a command and the desk takes it.
pub(super) fn does<S: Alter>(desk: &mut Desk<S>, command: Option<Command>) -> bool {
    match command {
        Some(command) => accepts(desk, &Request::Do(command)),
        None => false,
    }
}
