//! Whether groups are as the cut of their rollout's members and its actions say.

ghost use Rattle.std.specs.Prelude.{◌≡◌, IfOk, count_by};
ghost use Rattle.std.specs.List.{list_all};
ghost use Rattle.desk_verify.specs.private.Cuts.{are_right, counts_them, has_each, has_group_numbered, is_cut, is_right};
ghost use Rattle.desk_verify.specs.Groups.{has_ended};
ghost use Rattle.rollout_machine.specs.declared.outcome.Outcome.TheVariants.{Bad, Gone, Good};

use campaign_core::{cut_grouping, leaves_empty};
use desk_store::CountedAction;
use rollout_machine::{Bounds, GroupRecord, Outcome};
use rollout_model::Grouping;
use std::alloc::{AllocError, Global};

/// How many actions ended, by their outcome.
#[derive(Clone, Copy)]
struct EndedCounts {
    ok: usize,
    bad: usize,
    gone: usize,
}

/// Whether these are the groups of a rollout with so many members that is cut so, and with these actions.
pub(crate) fn are_right(
    alloc: Global,
    groups: &[GroupRecord],
    actions: &[CountedAction],
    members: u32,
    grouping: &Grouping,
) -> Result<bool, AllocError>
    ensures { IfOk result (λ right. right ≡ are_right grouping.now members actions.now groups.now) }
{
    if leaves_empty(grouping, members) {
        return Ok(false);
    }
    let cuts = cut_grouping(alloc, members, grouping)?;
    Ok(are_each_right(groups, actions, &cuts) && has_each(groups, grouping.count().get()))
}

fn are_each_right(groups: &[GroupRecord], actions: &[CountedAction], cuts: &[Bounds]) -> bool
    ensures { result ≡ list_all (is_right cuts.now actions.now) groups.now }
{
    groups.iter().all(|group| is_right(group, actions, cuts))
}

/// Whether there is a group of each number from 1 to the count.
fn has_each(groups: &[GroupRecord], count: u32) -> bool
    ensures { result ≡ has_each groups.now count }
{
    for before in 0..count {
        if !has_number(groups, before + 1) {
            return false;
        }
    }
    true
}

fn has_number(groups: &[GroupRecord], number: u32) -> bool
    ensures { result ≡ has_group_numbered groups.now number }
{
    groups.iter().any(|group| group.number == number)
}

fn is_right(group: &GroupRecord, actions: &[CountedAction], cuts: &[Bounds]) -> bool
    ensures { result ≡ is_right cuts.now actions.now group.now }
{
    is_cut(group, cuts) && counts_them(group, actions)
}

/// Whether the group is one of those with these bounds, with the ones of its number.
fn is_cut(group: &GroupRecord, cuts: &[Bounds]) -> bool
    ensures { result ≡ is_cut cuts.now group.now }
{
    if group.number == 0 {
        return false;
    }
    match cuts.get(group.number as usize - 1) {
        Some(own) => group.bounds.first == own.first && group.bounds.last == own.last,
        None => false,
    }
}

/// Whether it counts the actions between its bounds.
fn counts_them(group: &GroupRecord, actions: &[CountedAction]) -> bool
    ensures { result ≡ counts_them actions.now group.now }
{
    let ended = count_ended(actions, group.bounds);
    ended.ok == group.ok as usize
        && ended.bad == group.bad as usize
        && ended.gone == group.gone as usize
}

/// How many actions between the bounds ended, by each outcome.
fn count_ended(actions: &[CountedAction], bounds: Bounds) -> EndedCounts
    ensures ok { result.ok ≡ count_by (has_ended bounds Good) actions.now }
    ensures bad { result.bad ≡ count_by (has_ended bounds Bad) actions.now }
    ensures gone { result.gone ≡ count_by (has_ended bounds Gone) actions.now }
{
    let mut ended = EndedCounts {
        ok: 0,
        bad: 0,
        gone: 0,
    };
    for action in actions {
        if bounds.first <= action.place && action.place <= bounds.last {
            match action.outcome {
                Some(Outcome::Good) => ended.ok += 1,
                Some(Outcome::Bad) => ended.bad += 1,
                Some(Outcome::Gone) => ended.gone += 1,
                None => {}
            }
        }
    }
    ended
}
