//! Targets and their tags, in a change that is under way.

ghost use Rattle.std.specs.Prelude.{◌≡◌, filter, flat_map, length, map, take, drop};
ghost use Rattle.std.specs.Option.{option_map};
ghost use Rattle.rollout_machine.specs.ByteStrings.{same_bytes};
ghost use Rattle.rollout_machine.specs.Verdicts.{tags_of, target_of};
ghost use Rattle.desk_records.specs.TargetRow.{listed_target, owned_tags, stored_target};
ghost use Rattle.desk_records.specs.Targets.{AddsTag, AddsTarget, ids_of, renamed, targets_between, untagged, with_changed};
ghost use Rattle.desk_store.specs.Counting.{AddsIn, RunsIn};
ghost use Rattle.desk_store.specs.Changing.{FindsIn, KeepsTables, MakesIn, StaysIn};
ghost use Rattle.desk_store.specs.Failing.{FailsIn, WritesIn};

use crate::reading::{counted_in, read_all, read_optional};
use crate::statements::{ask, first, run};
use desk_records::{
    COUNT_TARGETS, DROP_TARGET_TAG, GET_TARGET, LIST_ALL_TARGETS, LIST_TAG_BETWEEN,
    LIST_TAGS_BETWEEN, LIST_TARGET_IDS, LIST_TARGET_TAGS, LIST_TARGETS_BETWEEN, ListedTarget,
    OwnedTag, PUT_TARGET, PUT_TARGET_TAG, SET_TARGET, StoredTarget,
};
use rollout_model::{ControllerId, Digest, Text, Word};
use sql_calls::{Calls, Fault};
use sqlite::{Alter, params};

/// What is kept of the target of an id, without its tags and attributes. A row that breaks a column's rule is `Broken`.
pub fn read_target<S: Alter>(
    calls: &mut Calls<S>,
    id: &ControllerId,
) -> Result<Option<StoredTarget>, Fault>
    ensures stays { StaysIn S.Store calls.old calls.new result }
    ensures keeps { KeepsTables S.Store calls.old calls.new result }
    ensures reads { FindsIn S.Store calls.old calls.new result (λ r found. found ≡ option_map stored_target (target_of r id.now)) }
    ensures fails { FailsIn S.Store calls.old calls.new result }
    ensures work { AddsIn 1 1 calls.old calls.new }
{
    let alloc = calls.alloc();
    let row = first(calls, GET_TARGET, params![id.as_str()])?;
    read_optional(alloc, row)
}

/// The tags of the target of an id, in byte order; none where there is no such target. A row that breaks the column's rule is `Broken`.
pub fn read_target_tags<S: Alter>(
    calls: &mut Calls<S>,
    id: &ControllerId,
) -> Result<Vec<Word>, Fault>
    ensures stays { StaysIn S.Store calls.old calls.new result }
    ensures reads { FindsIn S.Store calls.old calls.new result (λ r tags. tags.items ≡ tags_of (target_of r id.now)) }
    ensures fails { FailsIn S.Store calls.old calls.new result }
    ensures work { RunsIn 1 calls.old calls.new }
{
    let alloc = calls.alloc();
    let rows = ask(calls, LIST_TARGET_TAGS, params![id.as_str()])?;
    read_all(alloc, &rows)
}

/// The tags of the targets from an id to another, each with its target's id: in byte order of the ids, and then of the tags. A row
/// that breaks a column's rule is `Broken`.
pub fn read_tags_between<S: Alter>(
    calls: &mut Calls<S>,
    first: &ControllerId,
    last: &ControllerId,
) -> Result<Vec<OwnedTag>, Fault>
    ensures stays { StaysIn S.Store calls.old calls.new result }
    ensures reads { FindsIn S.Store calls.old calls.new result
        (λ r tags. tags.items ≡ flat_map owned_tags (targets_between first.now last.now r)) }
    ensures fails { FailsIn S.Store calls.old calls.new result }
    ensures work { RunsIn 1 calls.old calls.new }
{
    let alloc = calls.alloc();
    let rows = ask(
        calls,
        LIST_TAGS_BETWEEN,
        params![first.as_str(), last.as_str()],
    )?;
    read_all(alloc, &rows)
}

/// One tag of the targets from an id to another, with the id of each target that has it: in byte order of the ids. A row that
/// breaks a column's rule is `Broken`.
pub fn read_tag_between<S: Alter>(
    calls: &mut Calls<S>,
    first: &ControllerId,
    last: &ControllerId,
    tag: &str,
) -> Result<Vec<OwnedTag>, Fault>
    ensures stays { StaysIn S.Store calls.old calls.new result }
    ensures reads { FindsIn S.Store calls.old calls.new result
        (λ r tags. tags.items ≡ filter (λ o. same_bytes o.tag tag.now) (flat_map owned_tags (targets_between first.now last.now r))) }
    ensures fails { FailsIn S.Store calls.old calls.new result }
    ensures work { RunsIn 1 calls.old calls.new }
{
    let alloc = calls.alloc();
    let rows = ask(
        calls,
        LIST_TAG_BETWEEN,
        params![first.as_str(), last.as_str(), tag],
    )?;
    read_all(alloc, &rows)
}

/// All targets by their ids and names, in byte order of their ids. A row that breaks a column's rule is `Broken`.
pub fn read_all_targets<S: Alter>(calls: &mut Calls<S>) -> Result<Vec<ListedTarget>, Fault>
    ensures stays { StaysIn S.Store calls.old calls.new result }
    ensures reads { FindsIn S.Store calls.old calls.new result (λ r listed. listed.items ≡ map listed_target r.targets) }
    ensures fails { FailsIn S.Store calls.old calls.new result }
    ensures work { RunsIn 1 calls.old calls.new }
{
    let alloc = calls.alloc();
    let rows = ask(calls, LIST_ALL_TARGETS, &[])?;
    read_all(alloc, &rows)
}

/// The ids of all targets, in byte order. A row that breaks the column's rule is `Broken`.
pub fn read_target_ids<S: Alter>(calls: &mut Calls<S>) -> Result<Vec<ControllerId>, Fault>
    ensures stays { StaysIn S.Store calls.old calls.new result }
    ensures reads { FindsIn S.Store calls.old calls.new result (λ r ids. ids.items ≡ ids_of r.targets) }
    ensures fails { FailsIn S.Store calls.old calls.new result }
    ensures work { RunsIn 1 calls.old calls.new }
{
    let alloc = calls.alloc();
    let rows = ask(calls, LIST_TARGET_IDS, &[])?;
    read_all(alloc, &rows)
}

/// The targets from an id to another, which may be any texts, by their ids and names: in byte order of their ids. A row that breaks
/// a column's rule is `Broken`.
pub fn read_targets_between<S: Alter>(
    calls: &mut Calls<S>,
    first: &str,
    last: &str,
) -> Result<Vec<ListedTarget>, Fault>
    ensures stays { StaysIn S.Store calls.old calls.new result }
    ensures reads { FindsIn S.Store calls.old calls.new result
        (λ r listed. listed.items ≡ map listed_target (targets_between first.now last.now r)) }
    ensures fails { FailsIn S.Store calls.old calls.new result }
    ensures work { RunsIn 1 calls.old calls.new }
{
    let alloc = calls.alloc();
    let rows = ask(calls, LIST_TARGETS_BETWEEN, params![first, last])?;
    read_all(alloc, &rows)
}

/// How many targets there are.
pub fn read_target_count<S: Alter>(calls: &mut Calls<S>) -> Result<u32, Fault>
    ensures stays { StaysIn S.Store calls.old calls.new result }
    ensures reads { FindsIn S.Store calls.old calls.new result (λ r count. count ≡ length r.targets) }
    ensures fails { FailsIn S.Store calls.old calls.new result }
    ensures work { AddsIn 1 1 calls.old calls.new }
{
    let row = first(calls, COUNT_TARGETS, &[])?;
    counted_in(row)
}

/// Adds a target that isn't there, with no tags and no attributes yet.
pub fn write_target<S: Alter>(
    calls: &mut Calls<S>,
    id: &ControllerId,
    name: &Text,
    digest: &Digest,
) -> Result<(), Fault>
    ensures stays { WritesIn S.Store calls.old calls.new result }
    ensures writes { MakesIn S.Store calls.old calls.new result
        (AddsTarget id.now name.now digest.now) }
    ensures work { AddsIn 1 0 calls.old calls.new }
{
    run(
        calls,
        PUT_TARGET,
        params![id.as_str(), name.as_str(), digest.as_bytes().as_slice()],
    )
}

/// Gives the target of an id, where there is one, another name and another token's digest.
pub fn change_target<S: Alter>(
    calls: &mut Calls<S>,
    id: &ControllerId,
    name: &Text,
    digest: &Digest,
) -> Result<(), Fault>
    ensures stays { WritesIn S.Store calls.old calls.new result }
    ensures writes { MakesIn S.Store calls.old calls.new result (λ r next. next ≡ with_changed r id.now (renamed name.now digest.now)) }
    ensures work { AddsIn 1 0 calls.old calls.new }
{
    run(
        calls,
        SET_TARGET,
        params![id.as_str(), name.as_str(), digest.as_bytes().as_slice()],
    )
}

/// Gives a target that is there a tag that it hasn't.
pub fn write_target_tag<S: Alter>(
    calls: &mut Calls<S>,
    id: &ControllerId,
    tag: &Word,
) -> Result<(), Fault>
    ensures stays { WritesIn S.Store calls.old calls.new result }
    ensures writes { MakesIn S.Store calls.old calls.new result
        (AddsTag id.now tag.now) }
    ensures work { AddsIn 1 0 calls.old calls.new }
{
    run(calls, PUT_TARGET_TAG, params![id.as_str(), tag.as_str()])
}

/// Takes a tag from the target of an id, where it has it.
pub fn drop_target_tag<S: Alter>(
    calls: &mut Calls<S>,
    id: &ControllerId,
    tag: &Word,
) -> Result<(), Fault>
    ensures stays { WritesIn S.Store calls.old calls.new result }
    ensures writes { MakesIn S.Store calls.old calls.new result (λ r next. next ≡ with_changed r id.now (untagged tag.now)) }
    ensures work { AddsIn 1 0 calls.old calls.new }
{
    run(calls, DROP_TARGET_TAG, params![id.as_str(), tag.as_str()])
}
