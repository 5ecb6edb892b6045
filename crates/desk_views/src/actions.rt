//! Actions of targets and of rollouts, and their histories.

ghost use Rattle.std.specs.Prelude.{◌≡◌, ◌≤◌, ◌<◌, ◌+◌, ◌^◌, length, map, take, drop, option_copied, IfErr, IfOk, MatchResult};
ghost use Rattle.std.specs.Option.{option_map};
ghost use Rattle.rollout_machine.specs.Answers.{action_of_target};
ghost use Rattle.rollout_machine.specs.ByteStrings.{item_numbered};
ghost use Rattle.rollout_machine.specs.Groups.{holds_position};
ghost use Rattle.rollout_machine.specs.Objects.{actions_of_target, entry_shown};
ghost use Rattle.rollout_machine.specs.Ranges.{numbered};
ghost use Rattle.rollout_machine.specs.Replies.{ShownAction};
ghost use Rattle.rollout_machine.specs.StateWords.{group_holding};
ghost use Rattle.rollout_machine.specs.Requests.{ShowAction, ShowActionsTable, ShowHistory, ShowTargetActions};
ghost use Rattle.desk_records.specs.Actions.{history_of};
ghost use Rattle.desk_views.specs.private.Actions.{entry_by, listed_shown, number_at, reports_of, shown_among, shown_in, stored_in};
ghost use Rattle.desk_reads.specs.AtLists.{FailsAtListsIn, FindsAtListsIn};
ghost use Rattle.desk_views.specs.Showing.{ShowsIn};
ghost use Rattle.sql_calls.specs.declared.fault.Fault.TheVariants.{Broken, Memory};
ghost use Rattle.desk_store.specs.Counting.{RunsIn};
ghost use Rattle.desk_store.specs.private.Rows.{IfRowsBroken};
ghost use Rattle.desk_store.specs.Changing.{FindsIn, StaysIn};

use campaign_core::{ActionStatus, action_word};
use desk_store::{
    Calls, Fault, ListedAction, PlacedNumber, StoredAction, read_action, read_action_numbers,
    read_actions, read_groups, read_holding_group, read_numbers, read_rollout, read_target,
    read_target_actions,
};
use rollout_machine::GroupRecord;
use rollout_model::{
    Action, ActionNo, ControllerId, FeedbackNumber, HistoryEntry, NumberedEntry, Page, PageOf,
    Refusal, Reply, Reported, RolloutNo,
};
use sqlite::Alter;
use std::alloc::Global;

/// As much as a statement lists.
const WHOLE: Page = Page {
    offset: 0,
    limit: u32::MAX,
};

/// Shows a page of the actions of a target, in the order of their numbers.
pub fn show_target_actions<S: Alter>(
    alloc: Global,
    calls: &mut Calls<S>,
    id: ControllerId,
    page: Page,
) -> Result<Reply, Fault>
    ensures stays { StaysIn S.Store calls.old calls.new result }
    ensures shows { ShowsIn S.Store calls.old calls.new (ShowTargetActions id page) result }
    ensures fails { FailsAtListsIn S.Store calls.old calls.new result }
{
    if read_target(calls, &id)?.is_none() {
        return Ok(Reply::Refused(Refusal::NotFound));
    }
    let numbers = read_action_numbers(calls, &id)?;
    let total = count_of(&numbers)?;
    let content = read_actions_on(alloc, calls, &id, &numbers, page)?;
    Ok(Reply::Actions(PageOf { content, total }))
}

/// The actions of a target that are on a page, as they are shown, by the numbers of all its actions.
fn read_actions_on<S: Alter>(
    alloc: Global,
    calls: &mut Calls<S>,
    id: &ControllerId,
    numbers: &[ActionNo],
    page: Page,
) -> Result<Vec<Action>, Fault>
    ensures stays { StaysIn S.Store calls.old calls.new result }
    ensures reads { FindsAtListsIn S.Store calls.old calls.new result (λ now found.
        numbers.now ≡ map (λ (a : ShownAction). a.number) (actions_of_target now id.now)
        → found.items ≡ take page.limit (drop page.offset (actions_of_target now id.now))) }
    ensures fails { FailsAtListsIn S.Store calls.old calls.new result }
{
    let Some(first) = numbers.get(page.offset as usize) else {
        return Ok(Vec::new(alloc));
    };
    let listed = read_target_actions(calls, id, *first, page.limit)?;
    read_all_shown(alloc, calls, &listed)
}

/// Shows all actions of a rollout, in the order of their numbers.
pub fn show_actions_table<S: Alter>(
    alloc: Global,
    calls: &mut Calls<S>,
    number: RolloutNo,
) -> Result<Reply, Fault>
    ensures stays { StaysIn S.Store calls.old calls.new result }
    ensures shows { ShowsIn S.Store calls.old calls.new (ShowActionsTable number) result }
    ensures fails { FailsAtListsIn S.Store calls.old calls.new result }
    ensures work { RunsIn 3 calls.old calls.new }
{
    if read_rollout(calls, number.get())?.is_none() {
        return Ok(Reply::Refused(Refusal::NotFound));
    }
    let all = read_actions(calls, number, WHOLE)?;
    count_of(&all)?;
    let groups = read_groups(calls, number)?;
    let actions = all_shown_among(alloc, &groups, &all)?;
    Ok(Reply::ActionsTable(actions))
}

/// Shows an action of a target by its number.
pub fn show_action<S: Alter>(
    calls: &mut Calls<S>,
    id: ControllerId,
    number: ActionNo,
) -> Result<Reply, Fault>
    ensures stays { StaysIn S.Store calls.old calls.new result }
    ensures shows { ShowsIn S.Store calls.old calls.new (ShowAction id number) result }
    ensures fails { FailsAtListsIn S.Store calls.old calls.new result }
{
    let action = match read_of_target(calls, id, number)? {
        Some(action) => action,
        None => return Ok(Reply::Refused(Refusal::NotFound)),
    };
    let shown = read_shown(calls, &ListedAction { number, action })?;
    Ok(Reply::Action(shown))
}

/// Shows a page of the feedback on an action of a target, in its order.
pub fn show_history<S: Alter>(
    alloc: Global,
    calls: &mut Calls<S>,
    id: ControllerId,
    number: ActionNo,
    page: Page,
) -> Result<Reply, Fault>
    ensures stays { StaysIn S.Store calls.old calls.new result }
    ensures shows { ShowsIn S.Store calls.old calls.new (ShowHistory id number page) result }
    ensures fails { FailsAtListsIn S.Store calls.old calls.new result }
{
    let action = match read_of_target(calls, id, number)? {
        Some(action) => action,
        None => return Ok(Reply::Refused(Refusal::NotFound)),
    };
    let content = read_numbered(alloc, calls, number, page)?;
    let total = action.entries;
    Ok(Reply::History(PageOf { content, total }))
}

/// What was reported on an action, as far as it is on a page, with its places and numbers. Of an empty page no numbers are read.
fn read_numbered<S: Alter>(
    alloc: Global,
    calls: &mut Calls<S>,
    number: ActionNo,
    page: Page,
) -> Result<Vec<NumberedEntry>, Fault>
    ensures stays { StaysIn S.Store calls.old calls.new result }
    ensures reads { FindsAtListsIn S.Store calls.old calls.new result
        (λ now found. found.items ≡ take page.limit (drop page.offset (numbered entry_shown 1 (reports_of (item_numbered now.actions number))))) }
    ensures fails { FailsAtListsIn S.Store calls.old calls.new result }
{
    let entries = read_entries(calls, number, page)?;
    if entries.is_empty() {
        return Ok(Vec::new(alloc));
    }
    let numbers = read_numbers(calls, number)?;
    let shown = numbered_after(alloc, page.offset, entries, &numbers)?;
    Ok(shown)
}

/// The entries of an action's history that are on a page.
fn read_entries<S: Alter>(
    calls: &mut Calls<S>,
    number: ActionNo,
    page: Page,
) -> Result<Vec<HistoryEntry>, Fault>
    ensures stays { StaysIn S.Store calls.old calls.new result }
    ensures reads { FindsAtListsIn S.Store calls.old calls.new result
        (λ now found. found.items ≡ take page.limit (drop page.offset (history_of (item_numbered now.actions number)))) }
    ensures fails { FailsAtListsIn S.Store calls.old calls.new result }
{
    let entries = desk_store::read_entries(calls, number, page)?;
    Ok(entries)
}

/// Entries with their places, of which so many come before them, and with what they bear of these numbers. Where there are more than are
/// counted, the store has failed.
fn numbered_after(
    alloc: Global,
    before: u32,
    entries: Vec<HistoryEntry>,
    numbers: &[PlacedNumber],
) -> Result<Vec<NumberedEntry>, Fault>
    ensures ok { IfOk result (λ all. all.items ≡ numbered (entry_by numbers.now) (before + 1) entries.items) }
    ensures err { IfErr result (λ fault. IfRowsBroken fault (2 ^ 32 ≤ before + length entries.items)) }
{
    let mut all = Vec::new(alloc);
    let mut last = before;
    for entry in entries {
        let Some(place) = last.checked_add(1) else {
            return Err(Fault::Broken);
        };
        let number = number_at(numbers, place);
        let reported = Reported { entry, number };
        let shown = NumberedEntry {
            number: place,
            reported,
        };
        all.push(shown)?;
        last = place;
    }
    Ok(all)
}

/// The number of the entry at a place of the sequence, if it bears one.
fn number_at(numbers: &[PlacedNumber], place: u32) -> Option<FeedbackNumber>
    ensures { result ≡ number_at place numbers.now }
{
    let borne = numbers.iter().find(|it| it.sequence == place)?;
    Some(borne.number)
}

/// How many were listed. Where they are as many as a statement lists there may be more, and the store has failed.
fn count_of<T>(listed: &[T]) -> Result<u32, Fault>
    ensures { MatchResult result (λ count. (count ≡ length listed.now) × (count < 4294967295))
        (λ fault. (fault ≡ Broken) × (4294967295 ≤ length listed.now)) }
{
    match u32::try_from(listed.len()) {
        Ok(count) if count < u32::MAX => Ok(count),
        _ => Err(Fault::Broken),
    }
}

/// What is kept of the action of a number, where it is one of the target's.
pub(crate) fn read_of_target<S: Alter>(
    calls: &mut Calls<S>,
    id: ControllerId,
    number: ActionNo,
) -> Result<Option<StoredAction>, Fault>
    ensures stays { StaysIn S.Store calls.old calls.new result }
    ensures reads { FindsIn S.Store calls.old calls.new result (λ now found. found ≡ option_map (stored_in now) (action_of_target now id number)) }
    ensures fails { FailsAtListsIn S.Store calls.old calls.new result }
{
    let found = match read_action(calls, number)? {
        Some(found) => found,
        None => return Ok(None),
    };
    if found.target != id {
        return Ok(None);
    }
    Ok(Some(found))
}

/// Actions that were listed, as they are shown.
fn read_all_shown<S: Alter>(
    alloc: Global,
    calls: &mut Calls<S>,
    listed: &[ListedAction],
) -> Result<Vec<Action>, Fault>
    ensures stays { StaysIn S.Store calls.old calls.new result }
    ensures reads { FindsAtListsIn S.Store calls.old calls.new result (λ now all. all.items ≡ map (listed_shown now) listed.now) }
    ensures fails { FailsAtListsIn S.Store calls.old calls.new result }
{
    let mut all = Vec::new(alloc);
    for one in listed {
        let shown = read_shown(calls, one)?;
        match all.push(shown) {
            Ok(()) => {}
            Err(_) => return Err(Fault::Memory),
        }
    }
    Ok(all)
}

/// Actions of one rollout that were listed, as they are shown among its groups.
fn all_shown_among(
    alloc: Global,
    groups: &[GroupRecord],
    listed: &[ListedAction],
) -> Result<Vec<Action>, Fault>
    ensures ok { IfOk result (λ all. all.items ≡ map (shown_among groups.now) listed.now) }
    ensures err { IfErr result (λ fault. fault ≡ Memory) }
{
    let mut all = Vec::new(alloc);
    for one in listed {
        let group = group_holding(groups, one.action.position);
        all.push(shown_in(*one, group.copied()))?;
    }
    Ok(all)
}

/// The first of the groups that has a place.
fn group_holding(groups: &[GroupRecord], place: u32) -> Option<&GroupRecord>
    ensures { option_copied result ≡ group_holding place groups.now }
{
    groups.iter().find(|group| holds_position(group, place))
}

fn holds_position(group: &GroupRecord, place: u32) -> bool
    ensures { result ≡ holds_position place group.now.bounds }
{
    group.bounds.first <= place && place <= group.bounds.last
}

/// An action that was listed, as it is shown: its group tells whether it is started.
fn read_shown<S: Alter>(calls: &mut Calls<S>, listed: &ListedAction) -> Result<Action, Fault>
    ensures stays { StaysIn S.Store calls.old calls.new result }
    ensures reads { FindsAtListsIn S.Store calls.old calls.new result (λ now shown. shown ≡ listed_shown now listed.now) }
    ensures fails { FailsAtListsIn S.Store calls.old calls.new result }
{
    let group = read_holding_group(calls, listed.action.rollout, listed.action.position)?;
    Ok(shown_in(*listed, group))
}

fn shown_in(listed: ListedAction, group: Option<GroupRecord>) -> Action
    ensures { result ≡ shown_in listed group }
{
    let (group, started) = match group {
        Some(found) => (found.number, found.started),
        None => (0, false),
    };
    let StoredAction {
        rollout,
        position: _,
        target,
        canceling,
        outcome,
        notes: _,
        entries: _,
    } = listed.action;
    let word = action_word(&ActionStatus {
        outcome,
        started,
        canceling,
    });
    Action {
        number: listed.number,
        rollout,
        group,
        target,
        word,
    }
}
