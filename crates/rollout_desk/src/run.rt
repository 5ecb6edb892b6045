//! Requests one after the other.

ghost use Rattle.std.specs.Prelude.{map};
ghost use Rattle.rollout_machine.specs.Views.{request_of};
ghost use Rattle.rollout_desk.specs.Conduct.{BehavesRunning};
ghost use Rattle.rollout_desk.specs.Once.{AnswersAllOnce};
ghost use Rattle.rollout_desk.specs.Runs.{AnswersAll};

use crate::desk::Desk;
use rollout_machine::says_store_failed;
use rollout_model::{Refusal, Reply, Request};
use sqlite::Alter;

impl<S: Alter> Desk<S> {
    /// Answers requests one after the other. After a failed store it answers no more, so that reply is the last one, and it is stopped. The memory of
    /// all replies is taken first: `NoMemory` says that nothing was done. Final feedback that is sent again, and an import that comes
    /// twice, leave no trace in what is kept and in any other reply.
    pub fn run(&mut self, requests: &[Request]) -> Result<Vec<Reply>, Refusal>
        ensures conduct { BehavesRunning S.Store self.old self.new result }
        ensures ran { AnswersAll S.Store self.old self.new (map request_of requests.now) result }
        ensures once { AnswersAllOnce S.Store self.old self.new (map request_of requests.now) result }
    {
        if self.stopped {
            return Err(Refusal::Stopped);
        }
        let Ok(mut replies) = Vec::with_capacity(self.alloc, requests.len()) else {
            return Err(Refusal::NoMemory);
        };
        for request in requests {
            let reply = self.answer(request);
            let failed = says_store_failed(&reply);
            replies.push_reserved(reply);
            if failed {
                return Ok(replies);
            }
        }
        Ok(replies)
    }
}
