//! What a failed call of the store is told as.

ghost use Rattle.std.specs.Prelude.{◌≡◌};
ghost use Rattle.rollout_machine.specs.Replies.{Refused};
ghost use Rattle.rollout_machine.specs.Views.{reply_of};
ghost use Rattle.rollout_desk.specs.private.Changes.{refusal_of_fault};

use desk_store::Fault;
use rollout_model::{Refusal, Reply};

/// The refusal where a call of the store failed.
pub(crate) fn refusal_of(fault: Fault) -> Refusal
    ensures { result ≡ refusal_of_fault fault }
{
    match fault {
        Fault::Memory => Refusal::NoMemory,
        Fault::Store | Fault::Broken => Refusal::StoreFailed,
    }
}

/// The reply where a call of the store failed.
pub(crate) fn reply_of_fault(fault: Fault) -> Reply
    ensures { reply_of result ≡ Refused (refusal_of_fault fault) }
{
    Reply::Refused(refusal_of(fault))
}
