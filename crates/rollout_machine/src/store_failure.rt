//! Whether the store failed, after which a desk is stopped.

ghost use Rattle.std.specs.Prelude.{◌≡◌, ◌↔◌, IsTrue};
ghost use Rattle.rollout_model.specs.declared.refusal.Refusal.TheVariants.{StoreFailed};
ghost use Rattle.rollout_machine.specs.Replies.{Refused};
ghost use Rattle.rollout_machine.specs.StoreFailures.{is_failed_store, is_store};
ghost use Rattle.rollout_machine.specs.Views.{reply_of};

use rollout_model::{Refusal, Reply};

/// Whether a refusal says that the store failed.
pub fn is_failed_store(refusal: Refusal) -> bool
    ensures { result ≡ is_store refusal }
{
    matches!(refusal, Refusal::StoreFailed)
}

/// Whether a reply says so.
pub fn says_store_failed(reply: &Reply) -> bool
    ensures is { result ≡ is_failed_store (reply_of reply.now) }
    ensures only { IsTrue result ↔ (reply_of reply.now ≡ Refused StoreFailed) }
{
    match reply {
        Reply::Refused(refusal) => is_failed_store(*refusal),
        _ => false,
    }
}
