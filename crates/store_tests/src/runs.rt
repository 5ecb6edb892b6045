//! Several requests in one call, of which one is refused; and of two rows of one target in a put the later counts, which no body can ask for.

use super::asked::{puts, row_of};
use super::told::{new_desk, run};
use rollout_desk::Desk;
use rollout_model::{ControllerId, Query, Refusal, Reply, Request};
use sqlite::Alter;
use std::alloc::Global;

/// Puts the target `dev-01` under each of these names.
fn puts_named(alloc: Global, names: &[&str]) -> Option<Request> {
    let id = ControllerId::read("dev-01")?;
    let mut rows = Vec::new(alloc);
    for name in names {
        rows.push(row_of(alloc, id, name)?).ok()?;
    }
    Some(Request::Do(puts(rows)))
}

fn shows(id: &str) -> Option<Request> {
    Some(Request::Ask(Query::Target(ControllerId::read(id)?)))
}

/// Adds a request to those that are to be run.
fn add(requests: &mut Vec<Request>, request: Option<Request>) -> Option<()> {
    requests.push(request?).ok()
}

fn add_all(alloc: Global, requests: &mut Vec<Request>) -> Option<()> {
    add(requests, puts_named(alloc, &[]))?;
    add(requests, puts_named(alloc, &["Valve", "Pump"]))?;
    add(requests, shows("dev-01"))?;
    add(requests, shows("dev-02"))?;
    add(requests, puts_named(alloc, &["Gate", "Valve"]))?;
    add(requests, shows("dev-01"))
}

fn is_named(reply: &Reply, name: &str) -> bool {
    match reply {
        Reply::Target(target) => target.name.as_str() == name,
        _ => false,
    }
}

fn are_told(replies: &[Reply]) -> bool {
    match replies {
        [
            Reply::TargetsPut(0),
            Reply::TargetsPut(2),
            first,
            Reply::Refused(Refusal::NotFound),
            Reply::TargetsPut(2),
            second,
        ] => is_named(first, "Pump") && is_named(second, "Valve"),
        _ => false,
    }
}

fn answers<S: Alter>(desk: &mut Desk<S>, requests: &[Request]) -> bool {
    match run(desk, requests) {
        Ok(replies) => are_told(&replies),
        Err(_) => false,
    }
}

fn answers_all<S: Alter>(alloc: Global, desk: &mut Desk<S>) -> bool {
    let mut requests = Vec::new(alloc);
    add_all(alloc, &mut requests).is_some() && answers(desk, &requests)
}

#[test]
fn a_run_answers_each_request(rt: HostRuntime) {
    match new_desk(rt.alloc()) {
        Some(mut desk) => assert!(rt; answers_all(rt.alloc(), &mut desk)),
        None => assert!(rt; false, "memory"),
    }
}
