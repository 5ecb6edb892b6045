//! Targets with their tags and attributes.

ghost use Rattle.std.specs.Prelude.{◌≡◌, ◌++◌, ◌⊎◌, [], ◌∷◌, true, false, map, IfErr, IfOk, MatchOption, MatchResult};
ghost use Rattle.desk_reads.specs.AtLists.{FailsAtListsIn};
ghost use Rattle.rollout_model.specs.Rules.{is_tag_list};
ghost use Rattle.desk_records.specs.Targets.{in_byte_order};
ghost use Rattle.sql_calls.specs.declared.fault.Fault.TheVariants.{Broken, Memory};
ghost use Rattle.desk_reads.specs.Targets.{AreAttributesOf, AreEnds, AreLeft, AreTagsLike, HasNoTagList, attribute_ids, listed_ids};
ghost use Rattle.desk_reads.specs.Targets.{own_attributes, own_listed, own_tags, rises, tag_ids, target_listed};
ghost use Rattle.desk_store.specs.Changing.{FindsIn, StaysIn};
ghost use Rattle.desk_store.specs.Counting.{RunsIn};

use desk_store::{
    Calls, Fault, ListedTarget, OwnedAttribute, OwnedTag, read_attributes_between,
    read_tags_between, read_target_attributes, read_target_tags,
};
use rollout_model::{Attributes, ControllerId, Tags, Target, Word};
use sqlite::Alter;
use std::alloc::Global;
use std::cmp::Ordering;

/// A target that was listed, with its tags and its attributes: by two statements.
pub fn read_listed<S: Alter>(calls: &mut Calls<S>, listed: ListedTarget) -> Result<Target, Fault>
    ensures stays { StaysIn S.Store calls.old calls.new result }
    ensures reads { FindsIn S.Store calls.old calls.new result (λ now target. target ≡ target_listed now listed) }
    ensures fails { FailsAtListsIn S.Store calls.old calls.new result }
    ensures work { RunsIn 2 calls.old calls.new }
{
    let ListedTarget { id, name } = listed;
    let words = read_target_tags(calls, &id)?;
    let tags = tag_list(words)?;
    let attributes = read_target_attributes(calls, &id)?;
    Ok(Target {
        id,
        name,
        tags,
        attributes,
    })
}

/// Targets that were listed in byte order of their ids, with their tags and their attributes: by two statements, which read what all
/// targets have from the first to the last.
pub fn read_all_listed<S: Alter>(
    calls: &mut Calls<S>,
    listed: Vec<ListedTarget>,
) -> Result<Vec<Target>, Fault>
    ensures stays { StaysIn S.Store calls.old calls.new result }
    ensures reads { FindsIn S.Store calls.old calls.new result
        (λ now targets. in_byte_order (listed_ids listed.items) ≡ true → targets.items ≡ map (target_listed now) listed.items) }
    ensures fails { FailsAtListsIn S.Store calls.old calls.new result }
    ensures work { RunsIn 2 calls.old calls.new }
{
    let tags = tags_of_all(calls, &listed)?;
    let attributes = attributes_of_all(calls, &listed)?;
    let targets = with_own(calls.alloc(), listed, &tags, &attributes)?;
    Ok(targets)
}

/// The tags of the targets from the first to the last that were listed: by one statement.
pub(crate) fn tags_of_all<S: Alter>(
    calls: &mut Calls<S>,
    listed: &[ListedTarget],
) -> Result<Vec<OwnedTag>, Fault>
    ensures stays { StaysIn S.Store calls.old calls.new result }
    ensures reads { FindsIn S.Store calls.old calls.new result (λ now owned. AreTagsLike now [] listed.now owned.items) }
    ensures fails { FailsAtListsIn S.Store calls.old calls.new result }
    ensures work { RunsIn 1 calls.old calls.new }
{
    let Some((first, last)) = ends_of(listed) else {
        return Ok(Vec::new(calls.alloc()));
    };
    let owned = read_tags_between(calls, &first, &last)?;
    Ok(owned)
}

/// Their attributes.
pub(crate) fn attributes_of_all<S: Alter>(
    calls: &mut Calls<S>,
    listed: &[ListedTarget],
) -> Result<Vec<OwnedAttribute>, Fault>
    ensures stays { StaysIn S.Store calls.old calls.new result }
    ensures reads { FindsIn S.Store calls.old calls.new result (λ now owned. AreAttributesOf now listed.now owned.items) }
    ensures fails { FailsAtListsIn S.Store calls.old calls.new result }
    ensures work { RunsIn 1 calls.old calls.new }
{
    let Some((first, last)) = ends_of(listed) else {
        return Ok(Vec::new(calls.alloc()));
    };
    let owned = read_attributes_between(calls, &first, &last)?;
    Ok(owned)
}

/// The ids of the first and of the last that were listed.
pub(crate) fn ends_of(listed: &[ListedTarget]) -> Option<(ControllerId, ControllerId)>
    ensures { MatchOption result (listed.now ≡ []) (λ ends. AreEnds listed.now ends.0 ends.1) }
{
    let first = listed.first()?;
    let last = listed.last()?;
    Some((first.id, last.id))
}

/// The listed targets, each with its own of the tags and of the attributes: by one walk over both, where all come in the order of the
/// ids.
pub(crate) fn with_own(
    alloc: Global,
    listed: Vec<ListedTarget>,
    tags: &[OwnedTag],
    attributes: &[OwnedAttribute],
) -> Result<Vec<Target>, Fault>
    ensures ok { IfOk result (λ targets. in_byte_order (listed_ids listed.items) ≡ true → rises (tag_ids tags.now) ≡ true
        → rises (attribute_ids attributes.now) ≡ true → targets.items ≡ map (own_listed tags.now attributes.now) listed.items) }
    ensures err { IfErr result (λ fault. (fault ≡ Memory) ⊎ ((fault ≡ Broken) × (rises (tag_ids tags.now) ≡ true → HasNoTagList tags.now))) }
{
    let mut targets = Vec::new(alloc);
    let mut tags_left = tags;
    let mut attributes_left = attributes;
    for entry in listed {
        let (words, other_tags) = take_tags(alloc, tags_left, &entry.id)?;
        let (own, other_attributes) = take_attributes(alloc, attributes_left, &entry.id)?;
        tags_left = other_tags;
        attributes_left = other_attributes;
        let target = with_these(entry, words, own)?;
        targets.push(target)?;
    }
    Ok(targets)
}

/// A listed target with these tags and attributes.
fn with_these(
    listed: ListedTarget,
    words: Vec<Word>,
    attributes: Attributes,
) -> Result<Target, Fault>
    ensures ok { IfOk result (λ target. target ≡ record { id = listed.id; name = listed.name; tags = words.items; attributes = attributes }) }
    ensures err { IfErr result (λ fault. (fault ≡ Broken) × (is_tag_list words.items ≡ false)) }
{
    let tags = tag_list(words)?;
    let ListedTarget { id, name } = listed;
    Ok(Target {
        id,
        name,
        tags,
        attributes,
    })
}

/// Those of the tags that are of the target of an id, and what is left behind them.
fn take_tags<'a>(
    alloc: Global,
    owned: &'a [OwnedTag],
    id: &ControllerId,
) -> Result<(Vec<Word>, &'a [OwnedTag]), Fault>
    ensures ok { IfOk result (λ it. rises (tag_ids owned.now) ≡ true
        → (it.0.items ≡ own_tags id.now owned.now) × AreLeft tag_ids own_tags (id.now ∷ []) owned.now it.1.now) }
    ensures err { IfErr result (λ fault. fault ≡ Memory) }
{
    let mut words = Vec::new(alloc);
    let mut left = owned;
    while let [one, more @ ..] = left {
        match one.id.cmp(id) {
            Ordering::Less => {}
            Ordering::Equal => words.push(one.tag)?,
            Ordering::Greater => break,
        }
        left = more;
    }
    Ok((words, left))
}

/// Those of the attributes that are of the target of an id, and what is left behind them.
fn take_attributes<'a>(
    alloc: Global,
    owned: &'a [OwnedAttribute],
    id: &ControllerId,
) -> Result<(Attributes, &'a [OwnedAttribute]), Fault>
    ensures ok { IfOk result (λ it. rises (attribute_ids owned.now) ≡ true
        → (it.0 ≡ own_attributes id.now owned.now) × AreLeft attribute_ids own_attributes (id.now ∷ []) owned.now it.1.now) }
    ensures err { IfErr result (λ fault. fault ≡ Memory) }
{
    let mut attributes = Attributes::new(alloc);
    let mut left = owned;
    while let [one, more @ ..] = left {
        match one.id.cmp(id) {
            Ordering::Less => {}
            Ordering::Equal => attributes.push(one.attribute.copy(alloc)?)?,
            Ordering::Greater => break,
        }
        left = more;
    }
    Ok((attributes, left))
}

/// The tags of a target. Where they are more than 16, or one stands twice, rows are broken, since no target was given such tags.
fn tag_list(words: Vec<Word>) -> Result<Tags, Fault>
    ensures { MatchResult result (λ tags. tags ≡ words.items) (λ fault. (fault ≡ Broken) × (is_tag_list words.items ≡ false)) }
{
    match Tags::from_words(words) {
        Some(tags) => Ok(tags),
        None => Err(Fault::Broken),
    }
}
