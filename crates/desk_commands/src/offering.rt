//! What a target is offered, looked up again.

ghost use Rattle.desk_commands.specs.private.Offering.{Reoffers};
ghost use Rattle.desk_store.specs.Counting.{AddsIn};
ghost use Rattle.desk_store.specs.Changing.{MakesLedger, StaysIn};
ghost use Rattle.desk_store.specs.Failing.{FailsSeeing, AreActionsNumbered};

use desk_store::{Calls, Fault, change_offer, drop_offer, read_next_offer};
use rollout_model::{ActionNo, ControllerId};
use sqlite::Alter;

/// Looks up again what a target is offered, if it is offered an action: of its actions from that one on the first that is open and
/// whose group is started.
pub(crate) fn offer_anew<S: Alter>(
    calls: &mut Calls<S>,
    id: &ControllerId,
    from: ActionNo,
) -> Result<(), Fault>
    ensures stays { StaysIn S.Store calls.old calls.new result }
    ensures writes { MakesLedger S.Store calls.old calls.new result (Reoffers id.now from) }
    ensures fails { FailsSeeing S.Store AreActionsNumbered calls.old calls.new result }
    ensures work { AddsIn 2 1 calls.old calls.new }
{
    let offer = read_next_offer(calls, id, from)?;
    match offer {
        Some(offer) => change_offer(calls, id, from, offer),
        None => drop_offer(calls, id, from),
    }
}
