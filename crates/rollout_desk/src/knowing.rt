//! What a desk knows beside its tables: the ids of all targets. A page of all of them reads them, and an import forgets them.

ghost use Rattle.std.specs.Prelude.{◌≡◌, ◌<◌, ◌^◌, length, Some, None};
ghost use Rattle.sqlite.specs.Held.{state};
ghost use Rattle.rollout_machine.specs.Requests.{ShowTargets};
ghost use Rattle.rollout_machine.specs.Views.{command_of, query_of, reply_of};
ghost use Rattle.rollout_desk.specs.private.Knowing.{AnswersKnowing, Learns, known_behind};
ghost use Rattle.rollout_desk.specs.Sizes.{KeepsToTables};

use crate::change::run_query;
use crate::look::{look_at_ids, look_at_page};
use desk_store::DeskStore;
use rollout_model::{Command, ControllerId, Page, PageOf, Query, Reply};
use sqlite::Alter;
use std::alloc::Global;

/// What is known behind a command: an import may bring targets.
pub(crate) fn known_behind(
    known: Option<Vec<ControllerId>>,
    command: &Command,
) -> Option<Vec<ControllerId>>
    ensures { result ≡ known_behind known (command_of command.now) }
{
    match command {
        Command::PutTargets(_) => None,
        _ => known,
    }
}

/// How many there are: fewer than 2^32, since a desk takes no more than 10,000 targets.
fn count_of(ids: &Vec<ControllerId>) -> u32
    ensures { length ids.now.items < 2 ^ 32 → result ≡ length ids.now.items }
{
    u32::try_from(ids.len()).unwrap_or(u32::MAX)
}

/// Shows a page of all targets, whose ids are known: no others are read.
fn show_known<S: Alter>(
    alloc: Global,
    store: &mut DeskStore<S>,
    page: Page,
    ids: &Vec<ControllerId>,
) -> Reply
    ensures runs { AnswersKnowing S.Store (Some ids.now) store.old.calls store.new.calls (ShowTargets None page) (reply_of result) }
{
    match look_at_page(alloc, store, ids, page) {
        Ok(content) => Reply::Targets(PageOf {
            content,
            total: count_of(ids),
        }),
        Err(refusal) => Reply::Refused(refusal),
    }
}

/// Shows a page of all targets, and says which ids they have where they were read.
fn show_learning<S: Alter>(
    alloc: Global,
    store: &mut DeskStore<S>,
    page: Page,
) -> (Reply, Option<Vec<ControllerId>>)
    ensures runs { AnswersKnowing S.Store None store.old.calls store.new.calls (ShowTargets None page) (reply_of result.0) }
    ensures learns { Learns S.Store None store.old.calls store.new.calls result.1 }
{
    match look_at_ids(alloc, store, page) {
        Ok((content, ids)) => {
            let total = count_of(&ids);
            (Reply::Targets(PageOf { content, total }), Some(ids))
        }
        Err(refusal) => (Reply::Refused(refusal), None),
    }
}

/// Shows a page of all targets, and says which ids they have.
fn show_page<S: Alter>(
    alloc: Global,
    store: &mut DeskStore<S>,
    page: Page,
    known: Option<Vec<ControllerId>>,
) -> (Reply, Option<Vec<ControllerId>>)
    ensures runs { AnswersKnowing S.Store known store.old.calls store.new.calls (ShowTargets None page) (reply_of result.0) }
    ensures learns { Learns S.Store known store.old.calls store.new.calls result.1 }
{
    match known {
        Some(ids) => {
            let reply = show_known(alloc, store, page, &ids);
            (reply, Some(ids))
        }
        None => show_learning(alloc, store, page),
    }
}

/// Answers a query inside a transaction that changes nothing, and says what is known behind it. A page of all targets reads the ids of
/// all where they aren't known.
pub(crate) fn answer_knowing<S: Alter>(
    alloc: Global,
    store: &mut DeskStore<S>,
    query: &Query,
    known: Option<Vec<ControllerId>>,
) -> (Reply, Option<Vec<ControllerId>>)
    ensures runs { AnswersKnowing S.Store known store.old.calls store.new.calls (query_of query.now) (reply_of result.0) }
    ensures reads { KeepsToTables (state S.Store store.old.calls.conn) (state S.Store store.new.calls.conn) (query_of query.now) (reply_of result.0) }
    ensures learns { Learns S.Store known store.old.calls store.new.calls result.1 }
{
    match query {
        Query::Targets(None, page) => show_page(alloc, store, *page, known),
        _ => (run_query(alloc, store, query), known),
    }
}
