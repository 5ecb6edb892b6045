//! The desk.

ghost use Rattle.std.specs.Prelude.{◌≡◌, false, None};
ghost use Rattle.rollout_machine.specs.Requests.{Do, Ask};
ghost use Rattle.rollout_machine.specs.Views.{command_of, query_of, request_of, reply_of};
ghost use Rattle.rollout_desk.specs.Conduct.{Answers, BehavesReplying};
ghost use Rattle.rollout_desk.specs.DeskStates.{desk_state};
ghost use Rattle.rollout_desk.specs.Promises.{KeepsPromises};
ghost use Rattle.rollout_desk.specs.Sizes.{OnlyReads};
ghost use Rattle.rollout_desk.specs.Working.{CountsWork};
ghost use Rattle.sql_calls.specs.Calls.{no_work};

use crate::change::run_command;
use crate::knowing::{answer_knowing, known_behind};
use desk_store::{DeskStore, Work};
use rollout_machine::says_store_failed;
use rollout_model::{Command, ControllerId, Query, Refusal, Reply, Request};
use sqlite::Alter;
use std::alloc::Global;

/// Nothing was run.
const NO_WORK: Work = Work {
    statements: 0,
    rows: 0,
};

/// The records of a rollout server in one database. After a failed store it is stopped: it refuses everything, and calls
/// the store no more, until it is reopened.
#[derive(Drop)]
pub struct Desk<S: Alter> {
    pub(crate) store: DeskStore<S>,
    pub(crate) stopped: bool,
    /// The ids of all targets, where they are known.
    pub(crate) targets: Option<Vec<ControllerId>>,
    /// What the last command made of it.
    pub(crate) work: Work,
    pub(crate) alloc: Global,
}

impl<S: Alter> Desk<S> {
    /// A desk over its store, not stopped.
    pub(crate) fn over(alloc: Global, store: DeskStore<S>) -> Desk<S>
        ensures { result ≡ record { store = store; stopped = false; targets = None; work = no_work; alloc = alloc } }
    {
        Desk {
            store,
            stopped: false,
            targets: None,
            work: NO_WORK,
            alloc,
        }
    }

    /// Runs a command as one transaction, which is committed, or surely not, before the reply is known: only after
    /// `StoreFailed` it may be either.
    pub fn apply(&mut self, command: &Command) -> Reply
        ensures conduct { BehavesReplying S.Store self.old self.new (reply_of result) }
        ensures applies { Answers S.Store self.old self.new (Do (command_of command.now)) (reply_of result) }
        ensures counts { CountsWork (command_of command.now) self.old self.new }
    {
        self.work = NO_WORK;
        if self.stopped {
            return Reply::Refused(Refusal::Stopped);
        }
        let before = self.store.work();
        let reply = run_command(self.alloc, &mut self.store, command);
        self.work = self.store.work().since(before);
        self.stopped = says_store_failed(&reply);
        self.targets = known_behind(self.targets.take(), command);
        reply
    }

    /// Answers a query, and changes nothing. A device is told of its own offer alone, and gets no contents but of what it is offered.
    pub fn ask(&mut self, query: &Query) -> Reply
        ensures conduct { BehavesReplying S.Store self.old self.new (reply_of result) }
        ensures applies { Answers S.Store self.old self.new (Ask (query_of query.now)) (reply_of result) }
        ensures promised { KeepsPromises S.Store self.old self.new (query_of query.now) (reply_of result) }
        ensures reads { OnlyReads S.Store self.old self.new (query_of query.now) (reply_of result) }
    {
        if self.stopped {
            return Reply::Refused(Refusal::Stopped);
        }
        let known = self.targets.take();
        let (reply, next) = answer_knowing(self.alloc, &mut self.store, query, known);
        self.stopped = says_store_failed(&reply);
        self.targets = next;
        reply
    }

    /// Runs a command or answers a query.
    pub fn answer(&mut self, request: &Request) -> Reply
        ensures conduct { BehavesReplying S.Store self.old self.new (reply_of result) }
        ensures applies { Answers S.Store self.old self.new (request_of request.now) (reply_of result) }
        ensures counts { (c : _) → request_of request.now ≡ Do c → CountsWork c self.old self.new }
        ensures reads { (query : _) → request_of request.now ≡ Ask query → OnlyReads S.Store self.old self.new query (reply_of result) }
    {
        match request {
            Request::Do(command) => self.apply(command),
            Request::Ask(query) => self.ask(query),
        }
    }

    /// The statements that the last `apply` ran, and the rows that they gave: from nothing at its entry, BEGIN, COMMIT and ROLLBACK
    /// left out, each number at most 2^64 - 1, and within the command's bound. Takes no memory.
    pub fn work(&self) -> Work
        ensures { result ≡ self.now.work }
    {
        self.work
    }

    /// Whether the desk refuses everything until it is reopened.
    pub fn stopped(&self) -> bool
        ensures { result ≡ (desk_state S.Store self.now).is_stopped }
    {
        self.stopped
    }
}
