//! What targets are offered, in a change that is under way.

ghost use Rattle.std.specs.Prelude.{◌≡◌, None, Some, length, option_map, vec_items};
ghost use Rattle.desk_records.specs.LedgerSteps.{OffersGroup, reoffered};
ghost use Rattle.desk_records.specs.Listings.{has_text_at, FindsOne};
ghost use Rattle.desk_records.specs.NextOffers.{next_offer};
ghost use Rattle.desk_records.specs.Schema.{Offers};
ghost use Rattle.desk_store.specs.Changing.{FindsLedger, FindsTables, KeepsTables, MakesLedger, StaysIn};
ghost use Rattle.desk_store.specs.Counting.{AddsIn, RunsIn};
ghost use Rattle.desk_store.specs.Failing.{AreActionsNumbered, FailsIn, FailsSeeing, WritesIn};
ghost use Rattle.desk_store.specs.RawLists.{FindsFirst, SaysOfferOf, AreOffers, ListsRows, SaysOffer, any_row};
ghost use Rattle.desk_store.specs.Blaming.{Blames, BlamesGiven, ReadsOf};

use crate::checked_row::read_checked;
use crate::codes::flag_code;
use crate::reading::{read_at, read_optional};
use crate::statements::{ask, few, first, run};
use desk_records::{
    DROP_OFFER, GET_OFFER, LIST_OFFERS, NEXT_OFFER, OwnedOffer, PUT_GROUP_OFFERS, SET_OFFER,
};
use rollout_machine::Bounds;
use rollout_model::{ActionNo, ControllerId, Offer, RolloutNo};
use sql_calls::{Calls, Fault};
use sqlite::{Alter, params};

/// What the target of an id is offered. A row that breaks a column's rule is `Broken`.
pub fn read_offer<S: Alter>(calls: &mut Calls<S>, id: &ControllerId) -> Result<Option<Offer>, Fault>
    ensures stays { StaysIn S.Store calls.old calls.new result }
    ensures keeps { KeepsTables S.Store calls.old calls.new result }
    ensures reads { FindsLedger S.Store calls.old calls.new result (λ l found. found ≡ l.offers id.now) }
    ensures tells { FindsTables S.Store calls.old calls.new result (λ t found. FindsFirst (t Offers) (has_text_at 1 id.now) (SaysOfferOf id.now) found) }
    ensures fails { FailsIn S.Store calls.old calls.new result }
    ensures work { AddsIn 1 1 calls.old calls.new }
{
    let alloc = calls.alloc();
    let row = first(calls, GET_OFFER, params![id.as_str()])?;
    read_optional(alloc, row)
}

/// What the target of an id is to be offered, of its actions from one on: the first that is open and whose place a started group
/// of its rollout holds. A row that breaks a column's rule is `Broken`.
pub fn read_next_offer<S: Alter>(
    calls: &mut Calls<S>,
    id: &ControllerId,
    from: ActionNo,
) -> Result<Option<Offer>, Fault>
    ensures stays { StaysIn S.Store calls.old calls.new result }
    ensures reads { FindsLedger S.Store calls.old calls.new result
        (λ l found. length l.tallies ≡ length l.records.actions → found ≡ next_offer l.records id.now from) }
    ensures fails { FailsSeeing S.Store AreActionsNumbered calls.old calls.new result }
    ensures work { AddsIn 1 1 calls.old calls.new }
{
    let alloc = calls.alloc();
    let row = first(calls, NEXT_OFFER, params![id.as_str(), from.get()])?;
    read_optional(alloc, row)
}

/// Offers a target something in place of an action, if it is offered that.
pub fn change_offer<S: Alter>(
    calls: &mut Calls<S>,
    id: &ControllerId,
    action: ActionNo,
    offer: Offer,
) -> Result<(), Fault>
    ensures stays { WritesIn S.Store calls.old calls.new result }
    ensures writes { MakesLedger S.Store calls.old calls.new result (λ l next. next ≡ reoffered l id.now action (Some offer)) }
    ensures work { AddsIn 1 0 calls.old calls.new }
{
    let canceling = flag_code(offer.canceling);
    run(
        calls,
        SET_OFFER,
        params![id.as_str(), action.get(), offer.action.get(), canceling],
    )
}

/// Offers a target nothing any more, if it is offered an action.
pub fn drop_offer<S: Alter>(
    calls: &mut Calls<S>,
    id: &ControllerId,
    action: ActionNo,
) -> Result<(), Fault>
    ensures stays { WritesIn S.Store calls.old calls.new result }
    ensures writes { MakesLedger S.Store calls.old calls.new result (λ l next. next ≡ reoffered l id.now action None) }
    ensures work { AddsIn 1 0 calls.old calls.new }
{
    run(calls, DROP_OFFER, params![id.as_str(), action.get()])
}

/// Offers each action of a rollout between two places to its target, unless that is offered one of no greater number.
pub fn write_group_offers<S: Alter>(
    calls: &mut Calls<S>,
    number: RolloutNo,
    bounds: Bounds,
) -> Result<(), Fault>
    ensures stays { WritesIn S.Store calls.old calls.new result }
    ensures writes { MakesLedger S.Store calls.old calls.new result (OffersGroup number bounds) }
    ensures work { AddsIn 1 0 calls.old calls.new }
{
    run(
        calls,
        PUT_GROUP_OFFERS,
        params![number.get(), bounds.first, bounds.last],
    )
}

/// What the target of an id is offered, whatever rows there are. A row that breaks a column's rule is `Broken`, and so
/// is a second row of the id.
pub fn find_offer<S: Alter>(calls: &mut Calls<S>, id: &ControllerId) -> Result<Option<Offer>, Fault>
    ensures stays { StaysIn S.Store calls.old calls.new result }
    ensures reads { FindsTables S.Store calls.old calls.new result (λ t found. FindsOne (t Offers) (has_text_at 1 id.now) (SaysOfferOf id.now) found) }
    ensures blames { BlamesGiven S.Store (λ reading. AreOffers reading.tables × ReadsOf Offers reading) calls.old calls.new result }
    ensures work { AddsIn 1 1 calls.old calls.new }
{
    let alloc = calls.alloc();
    let Some(rows) = few(calls, GET_OFFER, params![id.as_str()], 1)? else {
        return Err(Fault::Broken);
    };
    read_at(alloc, &rows, 0)
}

/// What each target is offered, whatever rows there are; `None` where a row breaks a column's rule.
pub fn list_offers<S: Alter>(calls: &mut Calls<S>) -> Result<Option<Vec<OwnedOffer>>, Fault>
    ensures stays { StaysIn S.Store calls.old calls.new result }
    ensures reads { FindsTables S.Store calls.old calls.new result (λ t found. ListsRows (t Offers) any_row SaysOffer (option_map vec_items found)) }
    ensures blames { Blames S.Store calls.old calls.new result }
    ensures work { RunsIn 1 calls.old calls.new }
{
    let alloc = calls.alloc();
    let rows = ask(calls, LIST_OFFERS, &[])?;
    read_checked(alloc, &rows)
}
