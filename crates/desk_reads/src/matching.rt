//! Targets that a filter matches.

ghost use Rattle.std.specs.Prelude.{◌≡◌, ◌≤◌, ◌+◌, ◌++◌, [], ◌∷◌, Some, drop, length, take, true, IfErr, IfOk};
ghost use Rattle.std.specs.Option.{IsSomeAnd};
ghost use Rattle.rollout_machine.specs.Rollouts.{chosen};
ghost use Rattle.sql_calls.specs.declared.fault.Fault.TheVariants.{Memory};
ghost use Rattle.target_filter.specs.Grammar.{Tree};
ghost use Rattle.target_filter.specs.Profile.{filter_of};
ghost use Rattle.desk_records.specs.Targets.{in_byte_order};
ghost use Rattle.desk_reads.specs.AtLists.{FailsAtListsIn};
ghost use Rattle.desk_reads.specs.Matches.{
  AreNamedAttributes,
  AreNamedTags,
  attributes_reads,
  ids_matched,
  reads_named,
  tags_reads,
  those_matched,
};
ghost use Rattle.desk_reads.specs.Targets.{AreTagsLike, listed_ids};
ghost use Rattle.desk_store.specs.Changing.{FindsIn, StaysIn};
ghost use Rattle.desk_store.specs.Counting.{RunsIn};

use crate::candidates::read_candidates;
use crate::targets::{attributes_of_all, ends_of, tags_of_all, with_own};
use desk_store::{Calls, Fault, ListedTarget, OwnedAttribute, OwnedTag, read_tag_between};
use rollout_model::{ControllerId, Target};
use sqlite::Alter;
use std::alloc::Global;
use std::collections::VecDeque;
use std::str;
use target_filter::Filter;

/// How many targets one statement reads the tags of, or the attributes.
const PART: usize = 100;

/// The ids of the targets that a filter matches, in byte order. No more is read of any target than the filter names.
pub fn read_matching<S: Alter>(
    calls: &mut Calls<S>,
    filter: &Filter,
) -> Result<Vec<ControllerId>, Fault>
    ensures stays { StaysIn S.Store calls.old calls.new result }
    ensures reads { FindsIn S.Store calls.old calls.new result
        (λ now ids. IsSomeAnd (filter_of filter.now) (λ f. ids.items ≡ chosen (Some f) now.targets)) }
    ensures fails { FailsAtListsIn S.Store calls.old calls.new result }
    ensures work { FindsIn S.Store calls.old calls.new result (λ now _. calls.new.work.statements
        ≤ calls.old.work.statements + (1 + reads_named (filter_of filter.now) (length now.targets))) }
{
    let listed = read_candidates(calls, filter)?;
    let ids = keep_all(calls, filter, listed)?;
    Ok(ids)
}

/// The ids of those of the targets, listed in byte order of their ids, that a filter matches: by two statements at most for up to 100 of
/// them.
fn keep_all<S: Alter>(
    calls: &mut Calls<S>,
    filter: &Filter,
    listed: Vec<ListedTarget>,
) -> Result<Vec<ControllerId>, Fault>
    ensures stays { StaysIn S.Store calls.old calls.new result }
    ensures reads { FindsIn S.Store calls.old calls.new result
        (λ now ids. in_byte_order (listed_ids listed.items) ≡ true → (f : Tree) → filter_of filter.now ≡ Some f
        → ids.items ≡ those_matched now f listed.items) }
    ensures fails { FailsAtListsIn S.Store calls.old calls.new result }
    ensures work { IfOk result (λ _. calls.new.work.statements ≤ calls.old.work.statements
        + reads_named (filter_of filter.now) (length listed.items)) }
{
    let mut ids = Vec::new(calls.alloc());
    let parts = listed.len().div_ceil(PART);
    let mut left = VecDeque::from(listed);
    for _ in 0..parts {
        let part = take_part(calls.alloc(), &mut left)?;
        keep_part(calls, filter, part, &mut ids)?;
    }
    Ok(ids)
}

/// Takes as many off the front as one statement reads what they have. Those that are left stay where they are.
fn take_part(alloc: Global, left: &mut VecDeque<ListedTarget>) -> Result<Vec<ListedTarget>, Fault>
    ensures part { IfOk result (λ part. part.items ≡ take 100 left.old.items) }
    ensures left { IfOk result (λ _. left.new.items ≡ drop 100 left.old.items) }
    ensures err { IfErr result (λ fault. fault ≡ Memory) }
{
    let mut part = Vec::new(alloc);
    for _ in 0..PART {
        if let Some(entry) = left.pop_front() {
            part.push(entry)?;
        }
    }
    Ok(part)
}

/// Adds the ids of those of a part of the listed targets that the filter matches.
fn keep_part<S: Alter>(
    calls: &mut Calls<S>,
    filter: &Filter,
    part: Vec<ListedTarget>,
    ids: &mut Vec<ControllerId>,
) -> Result<(), Fault>
    ensures stays { StaysIn S.Store calls.old calls.new result }
    ensures reads { FindsIn S.Store calls.old calls.new result
        (λ now _. in_byte_order (listed_ids part.items) ≡ true → (f : Tree) → filter_of filter.now ≡ Some f
        → ids.new.items ≡ ids.old.items ++ those_matched now f part.items) }
    ensures fails { FailsAtListsIn S.Store calls.old calls.new result }
    ensures work { RunsIn (tags_reads (filter_of filter.now) + attributes_reads (filter_of filter.now)) calls.old calls.new }
{
    let tags = named_tags(calls, filter, &part)?;
    let attributes = named_attributes(calls, filter, &part)?;
    let targets = with_own(calls.alloc(), part, &tags, &attributes)?;
    add_matching(filter, targets, ids)?;
    Ok(())
}

/// The tags of the targets from the first to the last that were listed, as far as a filter names them: by one statement, where it names
/// any.
fn named_tags<S: Alter>(
    calls: &mut Calls<S>,
    filter: &Filter,
    listed: &[ListedTarget],
) -> Result<Vec<OwnedTag>, Fault>
    ensures stays { StaysIn S.Store calls.old calls.new result }
    ensures reads { FindsIn S.Store calls.old calls.new result (λ now owned. AreNamedTags now (filter_of filter.now) listed.now owned.items) }
    ensures fails { FailsAtListsIn S.Store calls.old calls.new result }
    ensures work { RunsIn (tags_reads (filter_of filter.now)) calls.old calls.new }
{
    if !filter.names_tags() {
        return Ok(Vec::new(calls.alloc()));
    }
    let Ok(tag) = str::from_utf8(filter.only_tag()) else {
        let all = tags_of_all(calls, listed)?;
        return Ok(all);
    };
    let owned = tags_like(calls, listed, tag)?;
    Ok(owned)
}

/// Those of their tags that are this one, or all where it is empty.
fn tags_like<S: Alter>(
    calls: &mut Calls<S>,
    listed: &[ListedTarget],
    tag: &str,
) -> Result<Vec<OwnedTag>, Fault>
    ensures stays { StaysIn S.Store calls.old calls.new result }
    ensures reads { FindsIn S.Store calls.old calls.new result (λ now owned. AreTagsLike now tag.now listed.now owned.items) }
    ensures fails { FailsAtListsIn S.Store calls.old calls.new result }
    ensures work { RunsIn 1 calls.old calls.new }
{
    if tag.is_empty() {
        let all = tags_of_all(calls, listed)?;
        return Ok(all);
    }
    let Some((first, last)) = ends_of(listed) else {
        return Ok(Vec::new(calls.alloc()));
    };
    let owned = read_tag_between(calls, &first, &last, tag)?;
    Ok(owned)
}

/// Their attributes, where the filter names one.
fn named_attributes<S: Alter>(
    calls: &mut Calls<S>,
    filter: &Filter,
    listed: &[ListedTarget],
) -> Result<Vec<OwnedAttribute>, Fault>
    ensures stays { StaysIn S.Store calls.old calls.new result }
    ensures reads { FindsIn S.Store calls.old calls.new result
        (λ now owned. AreNamedAttributes now (filter_of filter.now) listed.now owned.items) }
    ensures fails { FailsAtListsIn S.Store calls.old calls.new result }
    ensures work { RunsIn (attributes_reads (filter_of filter.now)) calls.old calls.new }
{
    if !filter.names_attributes() {
        return Ok(Vec::new(calls.alloc()));
    }
    let all = attributes_of_all(calls, listed)?;
    Ok(all)
}

/// Adds the ids of those of the targets that the filter matches.
fn add_matching(
    filter: &Filter,
    targets: Vec<Target>,
    ids: &mut Vec<ControllerId>,
) -> Result<(), Fault>
    ensures ok { IfOk result (λ _. (f : Tree) → filter_of filter.now ≡ Some f
        → ids.new.items ≡ ids.old.items ++ ids_matched f targets.items) }
    ensures err { IfErr result (λ fault. fault ≡ Memory) }
{
    for target in targets {
        add_if_match(filter, &target, ids)?;
    }
    Ok(())
}

/// Adds the id of a target, if the filter matches it.
fn add_if_match(filter: &Filter, target: &Target, ids: &mut Vec<ControllerId>) -> Result<(), Fault>
    ensures ok { IfOk result (λ _. (f : Tree) → filter_of filter.now ≡ Some f
        → ids.new.items ≡ ids.old.items ++ ids_matched f (target.now ∷ [])) }
    ensures err { IfErr result (λ fault. fault ≡ Memory) }
{
    if !filter.matches(target) {
        return Ok(());
    }
    ids.push(target.id)?;
    Ok(())
}
