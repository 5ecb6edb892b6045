//! The check of the table of offers.

ghost use Rattle.std.specs.Prelude.{◌≡◌};
ghost use Rattle.std.specs.List.{AllByRecursion};
ghost use Rattle.std.specs.List.Sorted.{IsPermutation};
ghost use Rattle.desk_records.specs.Schema.{Actions};
ghost use Rattle.desk_store.specs.Blaming.{BlamesGiven};
ghost use Rattle.desk_store.specs.Changing.{FindsTables, StaysIn};
ghost use Rattle.desk_verify.specs.Agreement.{SettlesWhether};
ghost use Rattle.desk_verify.specs.Checking.{ChecksDueActions, ChecksOffers};
ghost use Rattle.desk_verify.specs.OfferChecks.{AreGroupsOf, AreKeptGroups, Fits, IsOfferedIfDue, IsRight, IsRowOffered};
ghost use Rattle.desk_verify.specs.OfferChecks.{holds_started, is_due, is_started_at, is_that_rollout};
ghost use Rattle.desk_verify.specs.Offers.{AgreesOffers, IsInStartedGroup, IsOffered};

use crate::rollouts::{ByRollout, NumberedRollout, check_rollouts};
use desk_store::{
    Calls, Fault, ListedAction, OwnedOffer, StoredAction, find_action, find_offer,
    list_all_actions, list_groups, list_offers,
};
use rollout_machine::GroupRecord;
use rollout_model::{ActionNo, ControllerId, RolloutNo};
use sqlite::Alter;

/// The actions, of which one that is due is to be offered.
struct Actions;

/// The groups of the rollout that was looked at last, if one was.
#[derive(Drop)]
struct KeptGroups {
    rollout: Option<RolloutNo>,
    groups: Vec<GroupRecord>,
}

impl<S: Alter> ByRollout<S> for Actions {
    ghost table = { Actions };

    ghost column = { 2 };

    ghost is_right = { IsRowOffered };

    ghost is_whole = { λ t rollout. Unit };

    ghost agrees = { AgreesOffers };

    ghost given = { ChecksDueActions };

    fn check_rollout(
        calls: &mut Calls<S>,
        rollout: &NumberedRollout,
    ) -> Result<Option<usize>, Fault> {
        let Some(groups) = list_groups(calls, rollout.number)? else {
            return Err(Fault::Broken);
        };
        let Some(actions) = list_all_actions(calls, rollout.number)? else {
            return Err(Fault::Broken);
        };
        let offered = are_offered_if_due(calls, &groups, &actions)?;
        Ok(offered.then_some(actions.len()))
    }
}

/// Whether the table of offers agrees. A row of actions or groups that breaks a rule is `Broken`.
pub(crate) fn check_offers<S: Alter>(calls: &mut Calls<S>) -> Result<bool, Fault>
    ensures stays { StaysIn S.Store calls.old calls.new result }
    ensures judges { FindsTables S.Store calls.old calls.new result (λ t agrees. SettlesWhether (AgreesOffers t) agrees) }
    ensures blames { BlamesGiven S.Store ChecksOffers calls.old calls.new result }
{
    let Some(listed) = list_offers(calls)? else {
        return Ok(false);
    };
    let offers = in_action_order(listed);
    if !are_right(calls, &offers)? {
        return Ok(false);
    }
    let offered = check_rollouts::<Actions, S>(calls)?;
    Ok(offered.is_some())
}

/// Offers in the order of their actions, in which those of one rollout stand together.
fn in_action_order(mut offers: Vec<OwnedOffer>) -> Vec<OwnedOffer>
    ensures { IsPermutation offers.items result.items }
{
    offers.sort_unstable_by_key(|owned| owned.offer.action.get());
    offers
}

/// Whether each of the offers is right. The groups of a rollout are read once for all its offers that stand together.
fn are_right<S: Alter>(calls: &mut Calls<S>, offers: &[OwnedOffer]) -> Result<bool, Fault>
    ensures stays { StaysIn S.Store calls.old calls.new result }
    ensures judges { FindsTables S.Store calls.old calls.new result (λ t right. SettlesWhether (AllByRecursion (IsRight t) offers.now) right) }
    ensures blames { BlamesGiven S.Store ChecksOffers calls.old calls.new result }
{
    let mut kept = KeptGroups {
        rollout: None,
        groups: Vec::new(calls.alloc()),
    };
    for offer in offers {
        if !is_right(calls, &mut kept, offer)? {
            return Ok(false);
        }
    }
    Ok(true)
}

/// Whether an open action of the target is offered as it is to be done, and its group is started.
fn is_right<S: Alter>(
    calls: &mut Calls<S>,
    kept: &mut KeptGroups,
    owned: &OwnedOffer,
) -> Result<bool, Fault>
    ensures stays { StaysIn S.Store calls.old calls.new result }
    ensures judges { FindsTables S.Store calls.old calls.new result
        (λ t right. AreKeptGroups t kept.old → SettlesWhether (IsRight t owned.now) right × AreKeptGroups t kept.new) }
    ensures blames { BlamesGiven S.Store ChecksOffers calls.old calls.new result }
{
    let Some(action) = find_action(calls, owned.offer.action)? else {
        return Ok(false);
    };
    if !fits(&action, owned) {
        return Ok(false);
    }
    is_in_started_group(calls, kept, action.rollout, action.position)
}

/// Whether the action is open, of the target, and to be canceled where the offer says so.
fn fits(action: &StoredAction, owned: &OwnedOffer) -> bool
    ensures { SettlesWhether (Fits action.now owned.now) result }
{
    action.outcome.is_none()
        && action.target == owned.id
        && action.canceling == owned.offer.canceling
}

/// Whether a started group of the rollout holds the place. A row of a group that breaks a rule is `Broken`.
fn is_in_started_group<S: Alter>(
    calls: &mut Calls<S>,
    kept: &mut KeptGroups,
    rollout: RolloutNo,
    place: u32,
) -> Result<bool, Fault>
    ensures stays { StaysIn S.Store calls.old calls.new result }
    ensures judges { FindsTables S.Store calls.old calls.new result
        (λ t started. AreKeptGroups t kept.old → SettlesWhether (IsInStartedGroup t rollout place) started × AreKeptGroups t kept.new) }
    ensures blames { BlamesGiven S.Store ChecksOffers calls.old calls.new result }
{
    keep_groups(calls, kept, rollout)?;
    Ok(holds_started(&kept.groups, place))
}

/// Reads the groups of a rollout, unless they are kept already. A row of a group that breaks a rule is `Broken`.
fn keep_groups<S: Alter>(
    calls: &mut Calls<S>,
    kept: &mut KeptGroups,
    rollout: RolloutNo,
) -> Result<(), Fault>
    ensures stays { StaysIn S.Store calls.old calls.new result }
    ensures reads { FindsTables S.Store calls.old calls.new result
        (λ t done. AreKeptGroups t kept.old → AreGroupsOf t rollout kept.new.groups.items × AreKeptGroups t kept.new) }
    ensures blames { BlamesGiven S.Store ChecksOffers calls.old calls.new result }
{
    if is_of(kept.rollout, rollout) {
        return Ok(());
    }
    let Some(groups) = list_groups(calls, rollout)? else {
        return Err(Fault::Broken);
    };
    kept.rollout = Some(rollout);
    kept.groups = groups;
    Ok(())
}

/// Whether it is this rollout.
fn is_of(kept: Option<RolloutNo>, rollout: RolloutNo) -> bool
    ensures { result ≡ is_that_rollout kept rollout }
{
    match kept {
        Some(number) => number.get() == rollout.get(),
        None => false,
    }
}

/// Whether a started one of the groups holds the place.
fn holds_started(groups: &[GroupRecord], place: u32) -> bool
    ensures { result ≡ holds_started groups.now place }
{
    groups.iter().any(|group| is_started_at(group, place))
}

fn is_started_at(group: &GroupRecord, place: u32) -> bool
    ensures { result ≡ is_started_at place group.now }
{
    group.bounds.first <= place && place <= group.bounds.last && group.started
}

/// Whether the target of each action that is due is offered it, or one before it.
fn are_offered_if_due<S: Alter>(
    calls: &mut Calls<S>,
    groups: &[GroupRecord],
    actions: &[ListedAction],
) -> Result<bool, Fault>
    ensures stays { StaysIn S.Store calls.old calls.new result }
    ensures judges { FindsTables S.Store calls.old calls.new result
        (λ t offered. SettlesWhether (AllByRecursion (IsOfferedIfDue t groups.now) actions.now) offered) }
    ensures blames { BlamesGiven S.Store ChecksDueActions calls.old calls.new result }
{
    for listed in actions {
        if !is_offered_if_due(calls, groups, listed)? {
            return Ok(false);
        }
    }
    Ok(true)
}

fn is_offered_if_due<S: Alter>(
    calls: &mut Calls<S>,
    groups: &[GroupRecord],
    listed: &ListedAction,
) -> Result<bool, Fault>
    ensures stays { StaysIn S.Store calls.old calls.new result }
    ensures judges { FindsTables S.Store calls.old calls.new result (λ t offered. SettlesWhether (IsOfferedIfDue t groups.now listed.now) offered) }
    ensures blames { BlamesGiven S.Store ChecksDueActions calls.old calls.new result }
{
    if !is_due(groups, &listed.action) {
        return Ok(true);
    }
    is_offered(calls, &listed.action.target, listed.number)
}

/// Whether the action is open, and a started one of the groups holds its place.
fn is_due(groups: &[GroupRecord], action: &StoredAction) -> bool
    ensures { result ≡ is_due groups.now action.now }
{
    action.outcome.is_none() && holds_started(groups, action.position)
}

/// Whether the target is offered an action of no greater number.
fn is_offered<S: Alter>(
    calls: &mut Calls<S>,
    id: &ControllerId,
    number: ActionNo,
) -> Result<bool, Fault>
    ensures stays { StaysIn S.Store calls.old calls.new result }
    ensures judges { FindsTables S.Store calls.old calls.new result (λ t offered. SettlesWhether (IsOffered t id.now number) offered) }
    ensures blames { BlamesGiven S.Store ChecksDueActions calls.old calls.new result }
{
    match find_offer(calls, id)? {
        Some(offer) => Ok(offer.action.get() <= number.get()),
        None => Ok(false),
    }
}
