//! Groups of rollouts.

ghost use Rattle.std.specs.Prelude.{◌≡◌, ◌+◌, ◌-◌, ◌<◌, ◌≤◌, ◌^◌, ◌⊎◌, IfErr, IfOk, MatchResult, Some, None, drop, length, map, min, take};
ghost use Rattle.rollout_machine.specs.ByteStrings.{item_numbered};
ghost use Rattle.rollout_machine.specs.Commands.{RolloutPlan};
ghost use Rattle.rollout_machine.specs.GroupRules.{rule_at, rules_of};
ghost use Rattle.rollout_machine.specs.Objects.{group_shown, page_of};
ghost use Rattle.rollout_machine.specs.Requests.{ShowGroup, ShowGroupTargets, ShowGroups};
ghost use Rattle.rollout_machine.specs.Groups.{size_of_bounds};
ghost use Rattle.rollout_machine.specs.Views.{listed};
ghost use Rattle.rollout_machine.specs.declared.records.RolloutRecord.{RolloutRecord};
ghost use Rattle.desk_reads.specs.AtLists.{FailsAtListsIn, FailsWith};
ghost use Rattle.desk_reads.specs.Rollouts.{IsSeenOf};
ghost use Rattle.sql_calls.specs.declared.fault.Fault.TheVariants.{Broken};
ghost use Rattle.desk_store.specs.private.Rows.{IfRowsBroken};
ghost use Rattle.desk_views.specs.private.Groups.{HasUnshown, IsGroupOf};
ghost use Rattle.desk_views.specs.Showing.{ShowsIn};
ghost use Rattle.desk_store.specs.Changing.{FindsIn, StaysIn};

use crate::pages::{count_on, part_on};
use crate::targets::read_targets;
use campaign_core::{GroupStatus, group_word};
use desk_reads::{SeenRollout, read_seen_rollout, size_of};
use desk_store::{Calls, Fault, read_group, read_members, read_rule, read_rules};
use rollout_machine::{Bounds, GroupRecord};
use rollout_model::{Group, GroupRule, Page, PageOf, Refusal, Reply, RolloutNo};
use sqlite::Alter;
use std::alloc::Global;

/// Shows a page of the groups of a rollout, in their order.
pub fn show_groups<S: Alter>(
    alloc: Global,
    calls: &mut Calls<S>,
    number: RolloutNo,
    page: Page,
) -> Result<Reply, Fault>
    ensures stays { StaysIn S.Store calls.old calls.new result }
    ensures shows { ShowsIn S.Store calls.old calls.new (ShowGroups number page) result }
    ensures fails { FailsAtListsIn S.Store calls.old calls.new result }
{
    let seen = match read_seen_rollout(calls, number)? {
        Some(seen) => seen,
        None => return Ok(Reply::Refused(Refusal::NotFound)),
    };
    let rules = read_rules(calls, number)?;
    let shown = page_shown(alloc, &seen, &rules, page)?;
    Ok(Reply::Groups(shown))
}

/// Shows a group of a rollout by its number in there.
pub fn show_group<S: Alter>(
    calls: &mut Calls<S>,
    number: RolloutNo,
    group: u32,
) -> Result<Reply, Fault>
    ensures stays { StaysIn S.Store calls.old calls.new result }
    ensures shows { ShowsIn S.Store calls.old calls.new (ShowGroup number group) result }
    ensures fails { FailsAtListsIn S.Store calls.old calls.new result }
{
    let seen = match read_seen_rollout(calls, number)? {
        Some(seen) => seen,
        None => return Ok(Reply::Refused(Refusal::NotFound)),
    };
    let found = match read_group(calls, number, group)? {
        Some(found) => found,
        None => return Ok(Reply::Refused(Refusal::NotFound)),
    };
    let shown = read_shown_group(calls, number, &seen, &found)?;
    Ok(Reply::Group(shown))
}

/// A group of a rollout that is there, as it is shown. Where it has no rule, the store has failed.
fn read_shown_group<S: Alter>(
    calls: &mut Calls<S>,
    number: RolloutNo,
    seen: &SeenRollout,
    group: &GroupRecord,
) -> Result<Group, Fault>
    ensures stays { StaysIn S.Store calls.old calls.new result }
    ensures reads { FindsIn S.Store calls.old calls.new result
        (λ now shown. (x : RolloutRecord) → item_numbered now.rollouts number ≡ Some x → IsSeenOf seen.now x → shown ≡ group_shown x group.now) }
    ensures fails { FailsWith S.Store (IsGroupOf number group.now) calls.old calls.new result }
{
    match read_rule(calls, number, group.number)? {
        Some(rule) => shown_in(seen, rule, group),
        None => Err(Fault::Broken),
    }
}

/// Shows a page of the members of a group of a rollout, in byte order of their ids.
pub fn show_group_targets<S: Alter>(
    alloc: Global,
    calls: &mut Calls<S>,
    number: RolloutNo,
    group: u32,
    page: Page,
) -> Result<Reply, Fault>
    ensures stays { StaysIn S.Store calls.old calls.new result }
    ensures shows { ShowsIn S.Store calls.old calls.new (ShowGroupTargets number group page) result }
    ensures fails { FailsAtListsIn S.Store calls.old calls.new result }
{
    let found = match read_group(calls, number, group)? {
        Some(found) => found,
        None => return Ok(Reply::Refused(Refusal::NotFound)),
    };
    let total = count_of(&found)?;
    let members = read_members(calls, number, members_on(&found, total, page))?;
    let content = read_targets(alloc, calls, &members)?;
    Ok(Reply::Targets(PageOf { content, total }))
}

/// The members of a group that are on a page, as a page of all members of its rollout.
fn members_on(group: &GroupRecord, total: u32, page: Page) -> Page
    ensures offset { page.offset < total → total ≡ size_of_bounds group.now.bounds → result.offset ≡ group.now.bounds.first - 1 + page.offset }
    ensures limit { result.limit ≡ min page.limit (total - page.offset) }
{
    let Bounds { first, last } = group.bounds;
    let before = first.saturating_sub(1).saturating_add(page.offset);
    Page {
        offset: before.min(last),
        limit: count_on(page, total),
    }
}

/// How many members a group has. Where they are more than are counted, the store has failed.
fn count_of(group: &GroupRecord) -> Result<u32, Fault>
    ensures { MatchResult result (λ size. size ≡ size_of_bounds group.now.bounds) (λ fault. (fault ≡ Broken) × (2 ^ 32 ≤ size_of_bounds group.now.bounds)) }
{
    match u32::try_from(size_of(group)) {
        Ok(size) => Ok(size),
        Err(_) => Err(Fault::Broken),
    }
}

/// The groups of a rollout that are on a page, as they are shown.
fn page_shown(
    alloc: Global,
    seen: &SeenRollout,
    rules: &[GroupRule],
    page: Page,
) -> Result<PageOf<Group>, Fault>
    ensures ok { IfOk result (λ shown. (x : RolloutRecord) → IsSeenOf seen.now x → rules.now ≡ rules_of x.plan
        → listed shown ≡ page_of page (map (group_shown x) x.groups)) }
    ensures err { IfErr result (λ fault. IfRowsBroken fault ((2 ^ 32 ≤ length seen.now.groups.items) ⊎ HasUnshown rules.now
        (take page.limit (drop page.offset seen.now.groups.items)))) }
{
    let Ok(total) = u32::try_from(seen.groups.len()) else {
        return Err(Fault::Broken);
    };
    let content = all_shown(alloc, seen, rules, part_on(&seen.groups, page))?;
    Ok(PageOf { content, total })
}

/// These groups of a rollout as they are shown, by the rules of all its groups.
pub(crate) fn all_shown(
    alloc: Global,
    seen: &SeenRollout,
    rules: &[GroupRule],
    groups: &[GroupRecord],
) -> Result<Vec<Group>, Fault>
    ensures ok { IfOk result (λ shown. (x : RolloutRecord) → IsSeenOf seen.now x → rules.now ≡ rules_of x.plan
        → shown.items ≡ map (group_shown x) groups.now) }
    ensures err { IfErr result (λ fault. IfRowsBroken fault (HasUnshown rules.now groups.now)) }
{
    let mut all = Vec::new(alloc);
    for group in groups {
        let rule = rule_of(rules, group.number)?;
        let shown = shown_in(seen, rule, group)?;
        all.push(shown)?;
    }
    Ok(all)
}

/// The rule of the group of a number, counted from 1. Where there is none, the store has failed.
fn rule_of(rules: &[GroupRule], number: u32) -> Result<GroupRule, Fault>
    ensures { MatchResult result (λ rule. (plan : RolloutPlan) → rules.now ≡ rules_of plan → rule ≡ rule_at plan number)
        (λ fault. (fault ≡ Broken) × (item_numbered rules.now number ≡ None)) }
{
    if number == 0 {
        return Err(Fault::Broken);
    }
    match rules.get(number as usize - 1) {
        Some(rule) => Ok(*rule),
        None => Err(Fault::Broken),
    }
}

/// A group of a rollout as it is shown, by its rule.
fn shown_in(seen: &SeenRollout, rule: GroupRule, group: &GroupRecord) -> Result<Group, Fault>
    ensures ok { IfOk result (λ shown. (x : RolloutRecord) → IsSeenOf seen.now x → rule ≡ rule_at x.plan group.now.number
        → shown ≡ group_shown x group.now) }
    ensures err { IfErr result (λ fault. (fault ≡ Broken) × (2 ^ 32 ≤ size_of_bounds group.now.bounds)) }
{
    let size = count_of(group)?;
    let GroupRecord {
        number,
        bounds: _,
        started,
        ok,
        bad,
        gone,
    } = *group;
    let error = rule.error.get();
    let word = group_word(
        seen.started,
        &GroupStatus {
            started,
            size,
            ok,
            bad,
            gone,
            error,
        },
    );
    Ok(Group {
        number,
        size,
        ok,
        bad,
        gone,
        success: rule.success.get(),
        error,
        word,
    })
}
