//! What reports make the store do: those of a rollout of ten thousand members, up to the one that starts its second group.

use super::asked::{adds_module, adds_set, creates, credential_of, feedback, puts, row_of, starts};
use super::told::{answer, does, new_desk};
use rollout_desk::Desk;
use rollout_model::{Command, ControllerId, DeploymentWord, Query, Reply, Request};
use sqlite::Alter;
use std::alloc::Global;

/// As many as a desk takes.
const MEMBERS: u32 = 10_000;

/// Of the 5,000 members of the first group one of a hundred.
const ENOUGH: u32 = 50;

/// The id of the member at a place, in whose order ids are.
fn id_at(alloc: Global, place: u32) -> Option<ControllerId> {
    let number = MEMBERS.checked_add(place)?;
    let id = format!(in alloc; "{number}").ok()?;
    ControllerId::read(id.as_str())
}

fn puts_members(alloc: Global) -> Option<Command> {
    let mut rows = Vec::new(alloc);
    for place in 1..=MEMBERS {
        rows.push(row_of(alloc, id_at(alloc, place)?, "Pump")?)
            .ok()?;
    }
    Some(puts(rows))
}

/// Whether a rollout of all members is started, whose second group starts at a success of one in a hundred of the first.
fn begins<S: Alter>(alloc: Global, desk: &mut Desk<S>) -> bool {
    does(desk, adds_module(alloc))
        && does(desk, adds_set(alloc))
        && does(desk, puts_members(alloc))
        && does(desk, creates(alloc, "spring", "name==*", 1))
        && does(desk, starts(1))
}

/// The device at a place reports a success.
fn succeeds(alloc: Global, place: u32) -> Option<Command> {
    let id = id_at(alloc, place)?;
    let succeeded = feedback(alloc, id, place, DeploymentWord::Succeeded)?;
    Some(Command::Feedback(succeeded))
}

/// The last member asks what it is offered.
fn polls(alloc: Global) -> Option<Request> {
    Some(Request::Ask(Query::Poll(credential_of(id_at(alloc, MEMBERS)?))))
}

/// Whether a poll is answered by an offer, or by none.
fn offers(reply: &Reply) -> Option<bool> {
    match reply {
        Reply::Poll(_, offer) => Some(offer.is_some()),
        _ => None,
    }
}

/// Whether the last member is offered something.
fn is_offered<S: Alter>(alloc: Global, desk: &mut Desk<S>) -> Option<bool> {
    let request = polls(alloc)?;
    offers(&answer(desk, &request))
}

/// Whether the last report ran some statements and no more than one may run, with no more rows than it may take.
fn is_in_bounds<S: Alter>(desk: &Desk<S>) -> bool {
    let work = desk.work();
    work.statements > 0 && work.statements <= 14 && work.rows <= 24
}

/// Whether a success is taken within its bounds.
fn takes_success<S: Alter>(alloc: Global, desk: &mut Desk<S>, place: u32) -> bool {
    does(desk, succeeds(alloc, place)) && is_in_bounds(desk)
}

/// Whether the successes before the last of those that are enough are taken and start nothing.
fn waits<S: Alter>(alloc: Global, desk: &mut Desk<S>) -> bool {
    for place in 1..ENOUGH {
        if !takes_success(alloc, desk, place) || is_offered(alloc, desk) != Some(false) {
            return false;
        }
    }
    true
}

/// Whether the last of the successes that are enough starts the second group.
fn goes_on<S: Alter>(alloc: Global, desk: &mut Desk<S>) -> bool {
    takes_success(alloc, desk, ENOUGH) && is_offered(alloc, desk) == Some(true)
}

#[test]
fn feedback_runs_few_statements(rt: HostRuntime) {
    match new_desk(rt.alloc()) {
        Some(mut desk) => {
            assert!(rt; begins(rt.alloc(), &mut desk));
            assert!(rt; waits(rt.alloc(), &mut desk));
            assert!(rt; goes_on(rt.alloc(), &mut desk));
        }
        None => assert!(rt; false, "memory"),
    }
}
