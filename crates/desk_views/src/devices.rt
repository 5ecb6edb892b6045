//! What devices ask of their offers.

ghost use Rattle.std.specs.Prelude.{◌≡◌, true, false};
ghost use Rattle.rollout_machine.specs.Answers.{is_offer_of, query_reply};
ghost use Rattle.rollout_machine.specs.Requests.{Poll, ShowCancel};
ghost use Rattle.rollout_machine.specs.Views.{reply_of};
ghost use Rattle.desk_reads.specs.AtLists.{FailsAtListsIn};
ghost use Rattle.desk_store.specs.Changing.{FindsIn, StaysIn};
ghost use Rattle.desk_views.specs.Kept.{TellsKept};
ghost use Rattle.desk_views.specs.Sizes.{AgreesIn};

use desk_reads::knows_device;
use desk_store::{Calls, Fault, read_offer};
use rollout_model::{ActionNo, Credential, Offer, Refusal, Reply};
use sqlite::Alter;

/// Shows a device what it is offered.
pub fn show_poll<S: Alter>(calls: &mut Calls<S>, device: &Credential) -> Result<Reply, Fault>
    ensures stays { StaysIn S.Store calls.old calls.new result }
    ensures reads { FindsIn S.Store calls.old calls.new result (λ now reply. reply_of reply ≡ query_reply now (Poll device.now)) }
    ensures kept { AgreesIn S.Store calls.old calls.new result (λ t reply. TellsKept t device.now.id (reply_of reply)) }
    ensures fails { FailsAtListsIn S.Store calls.old calls.new result }
{
    if !knows_device(calls, device)? {
        return Ok(Reply::Refused(Refusal::Unauthorized));
    }
    let offer = read_offer(calls, &device.id)?;
    Ok(Reply::Poll(device.id, offer))
}

/// Shows a device the cancel that it is offered.
pub fn show_cancel<S: Alter>(
    calls: &mut Calls<S>,
    device: &Credential,
    number: ActionNo,
) -> Result<Reply, Fault>
    ensures stays { StaysIn S.Store calls.old calls.new result }
    ensures reads { FindsIn S.Store calls.old calls.new result (λ now reply. reply_of reply ≡ query_reply now (ShowCancel device.now number)) }
    ensures kept { AgreesIn S.Store calls.old calls.new result (λ t reply. TellsKept t device.now.id (reply_of reply)) }
    ensures fails { FailsAtListsIn S.Store calls.old calls.new result }
{
    if !knows_device(calls, device)? {
        return Ok(Reply::Refused(Refusal::Unauthorized));
    }
    let offer = read_offer(calls, &device.id)?;
    if !is_offer_of(offer, number, true) {
        return Ok(Reply::Refused(Refusal::NotFound));
    }
    Ok(Reply::Cancel(number))
}

/// Whether it is this action that is offered, as a cancel or as a deployment.
pub(crate) fn is_offer_of(offer: Option<Offer>, number: ActionNo, canceling: bool) -> bool
    ensures { result ≡ is_offer_of number canceling offer }
{
    match offer {
        Some(offer) => offer.action == number && offer.canceling == canceling,
        None => false,
    }
}
