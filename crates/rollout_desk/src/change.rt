//! One request as one change of the store.

ghost use Rattle.std.specs.Prelude.{◌≡◌};
ghost use Rattle.sqlite.specs.Held.{state};
ghost use Rattle.rollout_machine.specs.Requests.{Do, Ask};
ghost use Rattle.rollout_machine.specs.StoreFailures.{is_failed_store};
ghost use Rattle.rollout_machine.specs.Views.{command_of, query_of, reply_of};
ghost use Rattle.rollout_desk.specs.Sizes.{AnswersIn, KeepsToTables, ReadsAnswer};
ghost use Rattle.rollout_desk.specs.private.Changes.{EndsChange, EndsByCommit, EndsByRollback, RunsRequest};
ghost use Rattle.desk_reads.specs.AtLists.{FailsAtListsIn};
ghost use Rattle.desk_commands.specs.Bounds.{AddsWithin};
ghost use Rattle.desk_store.specs.Changing.{StaysIn};

use crate::look::{Question, look};
use crate::refusals::reply_of_fault;
use desk_commands::{Step, take_step};
use desk_store::{Calls, DeskStore, Fault, OpenChange};
use desk_views::{
    show_action, show_actions_table, show_artifact, show_artifacts, show_cancel, show_contents,
    show_deployment, show_download, show_group, show_group_targets, show_groups, show_history,
    show_module, show_modules, show_poll, show_report, show_rollout, show_rollouts, show_set,
    show_sets, show_target, show_target_actions, show_targets,
};
use rollout_model::{Command, Query, Refusal, Reply};
use sqlite::Alter;
use std::alloc::Global;

/// Answers a query inside a change.
fn answer<S: Alter>(alloc: Global, calls: &mut Calls<S>, query: &Query) -> Result<Reply, Fault>
    ensures stays { StaysIn S.Store calls.old calls.new result }
    ensures answers { AnswersIn S.Store calls.old calls.new (query_of query.now) result }
    ensures fails { FailsAtListsIn S.Store calls.old calls.new result }
{
    match query {
        Query::Modules(page) => show_modules(alloc, calls, *page),
        Query::Module(number) => show_module(calls, *number),
        Query::Artifacts(module_number, page) => {
            show_artifacts(alloc, calls, *module_number, *page)
        }
        Query::Artifact(module_number, number) => show_artifact(calls, *module_number, *number),
        Query::Contents(module_number, number) => {
            show_contents(alloc, calls, *module_number, *number)
        }
        Query::Sets(page) => show_sets(alloc, calls, *page),
        Query::Set(number) => show_set(calls, *number),
        Query::Targets(filter, page) => show_targets(alloc, calls, filter, *page),
        Query::Target(id) => show_target(calls, *id),
        Query::Poll(device) => show_poll(calls, device),
        Query::Deployment(device, action) => show_deployment(alloc, calls, device, *action),
        Query::CancelOf(device, action) => show_cancel(calls, device, *action),
        Query::Download(device, module_number, filename) => {
            show_download(alloc, calls, device, *module_number, filename)
        }
        Query::Actions(id, page) => show_target_actions(alloc, calls, *id, *page),
        Query::Action(id, number) => show_action(calls, *id, *number),
        Query::History(id, number, page) => show_history(alloc, calls, *id, *number, *page),
        Query::Rollouts(page) => show_rollouts(alloc, calls, *page),
        Query::Rollout(number) => show_rollout(calls, *number),
        Query::Groups(number, page) => show_groups(alloc, calls, *number, *page),
        Query::Group(number, group) => show_group(calls, *number, *group),
        Query::GroupTargets(number, group, page) => {
            show_group_targets(alloc, calls, *number, *group, *page)
        }
        Query::Report(number) => show_report(alloc, calls, *number),
        Query::ActionsTable(number) => show_actions_table(alloc, calls, *number),
    }
}

/// Commits a change, and then gives the reply that was made.
fn commit<S: Alter>(change: OpenChange<'_, S>, reply: Reply) -> Reply
    ensures { EndsChange S.Store EndsByCommit is_failed_store change.entry.store.now.calls change.exit.0.now.calls (reply_of reply) (reply_of result) }
{
    match change.commit() {
        Ok(()) => reply,
        Err(_uncommitted) => Reply::Refused(Refusal::StoreFailed),
    }
}

/// Gives a change up, and then the reply that was made.
fn give_up<S: Alter>(change: OpenChange<'_, S>, reply: Reply) -> Reply
    ensures { EndsChange S.Store EndsByRollback is_failed_store change.entry.store.now.calls change.exit.0.now.calls (reply_of reply) (reply_of result) }
{
    match change.give_up() {
        Ok(()) => reply,
        Err(_) => Reply::Refused(Refusal::StoreFailed),
    }
}

/// Runs a command as one transaction.
pub(crate) fn run_command<S: Alter>(
    alloc: Global,
    store: &mut DeskStore<S>,
    command: &Command,
) -> Reply
    ensures runs { RunsRequest S.Store store.old.calls store.new.calls (Do (command_of command.now)) (reply_of result) }
    ensures work { AddsWithin (command_of command.now) store.old.calls.work store.new.calls.work }
{
    let mut change = match store.begin() {
        Ok(change) => change,
        Err(fault) => return reply_of_fault(fault),
    };
    match take_step(alloc, change.calls(), command) {
        Ok(Step::Accepted(reply)) => commit(change, reply),
        Ok(Step::Refused(refusal)) => give_up(change, Reply::Refused(refusal)),
        Err(fault) => give_up(change, reply_of_fault(fault)),
    }
}

/// A query.
#[derive(Drop)]
struct Asked<'a> {
    alloc: Global,
    query: &'a Query,
}

impl<'a, S: Alter> Question<S, Reply> for Asked<'a> {
    ghost finds = { λ it. ReadsAnswer S.Store (query_of it.query.now) };

    fn read(&self, calls: &mut Calls<S>) -> Result<Reply, Fault> {
        answer(self.alloc, calls, self.query)
    }
}

/// Answers a query inside a transaction that changes nothing.
pub(crate) fn run_query<S: Alter>(alloc: Global, store: &mut DeskStore<S>, query: &Query) -> Reply
    ensures runs { RunsRequest S.Store store.old.calls store.new.calls (Ask (query_of query.now)) (reply_of result) }
    ensures reads { KeepsToTables (state S.Store store.old.calls.conn) (state S.Store store.new.calls.conn) (query_of query.now) (reply_of result) }
{
    match look(store, &Asked { alloc, query }) {
        Ok(reply) => reply,
        Err(refusal) => Reply::Refused(refusal),
    }
}
