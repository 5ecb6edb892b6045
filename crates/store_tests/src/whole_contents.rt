//! Contents of the most pieces, asked for as a whole: the program hands them out piece by piece alone.

use super::asked::{adds_artifact, adds_module, asks_contents, some_bytes};
use super::told::{answer, does, new_desk};
use rollout_desk::Desk;
use rollout_model::limits::ARTIFACT_SIZE_LIMIT;
use rollout_model::{Query, Reply, Request};
use sqlite::Alter;
use std::alloc::Global;

fn shows<S: Alter>(desk: &mut Desk<S>, query: Query, contents: &[u8]) -> bool {
    match answer(desk, &Request::Ask(query)) {
        Reply::Contents(shown) => shown.as_slice() == contents,
        _ => false,
    }
}

/// Whether what is uploaded is shown.
fn comes_back(alloc: Global, size: usize) -> Option<bool> {
    let mut desk = new_desk(alloc)?;
    let _ = does(&mut desk, adds_module(alloc));
    let _ = does(
        &mut desk,
        adds_artifact("abc.bin", some_bytes(alloc, size)?),
    );
    let contents = some_bytes(alloc, size)?;
    Some(shows(&mut desk, asks_contents()?, &contents))
}

#[test]
fn contents_of_the_most_bytes_come_whole(rt: HostRuntime) {
    assert!(rt; comes_back(rt.alloc(), ARTIFACT_SIZE_LIMIT) == Some(true));
}
