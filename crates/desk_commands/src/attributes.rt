//! Attributes: those that a device gives its target.

ghost use Rattle.std.specs.Prelude.{◌≡◌, ◌≤◌, ◌+◌, ◌&&◌, not, true, length, nat_eq};
ghost use Rattle.std.specs.Cmp.Lexicographic.{pointwise};
ghost use Rattle.std.specs.List.{list_any};
ghost use Rattle.desk_records.specs.Targets.{in_byte_order, keys_of};
ghost use Rattle.rollout_machine.specs.ByteStrings.{contains_word};
ghost use Rattle.rollout_machine.specs.Commands.{Attribute, PutAttributes};
ghost use Rattle.desk_commands.specs.private.Attributes.{GivesAttribute, GivesAttributes, ViewsAttributes, has_attribute, keys_after};
ghost use Rattle.desk_store.specs.Changing.{MakesIn, StaysIn};
ghost use Rattle.desk_commands.specs.Changing.{StepsIn};
ghost use Rattle.desk_commands.specs.Failures.{FailsStepIn};
ghost use Rattle.desk_store.specs.Failing.{WritesIn};

use crate::step::Step;
use campaign_core::AttributesView;
use desk_reads::knows_device;
use desk_store::{
    Calls, Fault, change_target_attribute, read_target_attributes, write_target_attribute,
};
use rollout_model::{Attribute, ConfigData, ControllerId, Credential, Reply, Word};
use sqlite::Alter;

/// Whether one of the attributes is of this key.
fn has_key(attributes: &[Attribute], key: &Word) -> bool
    ensures { result ≡ list_any (λ (attribute : Attribute). pointwise nat_eq attribute.key key.now) attributes.now }
{
    attributes.iter().any(|attribute| attribute.key == *key)
}

/// Whether a target that had these attributes, and was given others since, has one of this key.
#[tactic(auto, using(crate::proofs::AttributeLemmas::has_since))]
fn has_key_since(had: &[Attribute], since: &[Attribute], key: &Word) -> bool
    ensures { result ≡ contains_word key.now (keys_after since.now had.now) }
{
    has_key(since, key) || has_key(had, key)
}

/// Whether it has the attribute still, with this value.
fn keeps(had: &[Attribute], since: &[Attribute], attribute: &Attribute) -> bool
    ensures { result ≡ (not (contains_word attribute.now.key (keys_of since.now)) && has_attribute attribute.now had.now) }
{
    !has_key(since, &attribute.key) && had.contains(attribute)
}

/// How many keys are given that the target hadn't.
fn count_new(given: &[Attribute], had: &[Attribute]) -> usize
    ensures few { result ≤ length given.now }
    ensures all { in_byte_order (keys_of had.now) ≡ true → length had.now + result ≡ length (keys_after given.now had.now) }
{
    let mut added = 0;
    for (i, attribute) in given.iter().enumerate() {
        if !has_key_since(had, &given[..i], &attribute.key) {
            added += 1;
        }
    }
    added
}

/// What the verdict on attributes rests on, where the device is known or not, and its target has these.
fn view_of(known: bool, given: &[Attribute], had: &[Attribute]) -> AttributesView
    ensures { ViewsAttributes known given.now had.now result }
{
    AttributesView {
        misses_device: !known,
        count: had.len(),
        added: count_new(given, had),
    }
}

/// Gives a target an attribute, where it had these and was given others since.
fn give_attribute<S: Alter>(
    calls: &mut Calls<S>,
    id: &ControllerId,
    attribute: &Attribute,
    had: &[Attribute],
    since: &[Attribute],
) -> Result<(), Fault>
    ensures stays { WritesIn S.Store calls.old calls.new result }
    ensures writes { MakesIn S.Store calls.old calls.new result (GivesAttribute id.now had.now since.now attribute.now) }
{
    if !has_key_since(had, since, &attribute.key) {
        return write_target_attribute(calls, id, attribute);
    }
    if keeps(had, since, attribute) {
        return Ok(());
    }
    change_target_attribute(calls, id, attribute)
}

/// Gives a target that had these attributes others, one after the other.
fn give_attributes<S: Alter>(
    calls: &mut Calls<S>,
    id: &ControllerId,
    given: &[Attribute],
    had: &[Attribute],
) -> Result<(), Fault>
    ensures stays { WritesIn S.Store calls.old calls.new result }
    ensures writes { MakesIn S.Store calls.old calls.new result (GivesAttributes id.now had.now given.now) }
{
    for (i, attribute) in given.iter().enumerate() {
        give_attribute(calls, id, attribute, had, &given[..i])?;
    }
    Ok(())
}

/// Gives the device's target new values of attributes. Those that it names no key of stay. Takes at most 32 keys in all.
pub(crate) fn put_attributes<S: Alter>(
    calls: &mut Calls<S>,
    device: &Credential,
    given: &ConfigData,
) -> Result<Step, Fault>
    ensures stays { StaysIn S.Store calls.old calls.new result }
    ensures steps { StepsIn S.Store calls.old calls.new (PutAttributes device.now given.now) result }
    ensures fails { FailsStepIn S.Store calls.old calls.new result }
{
    let known = knows_device(calls, device)?;
    let attributes = read_target_attributes(calls, &device.id)?;
    let had = attributes.as_slice();
    let given = given.as_slice();
    let view = view_of(known, given, had);
    match campaign_core::put_attributes(&view) {
        Ok(()) => {}
        Err(refusal) => return Ok(Step::Refused(refusal)),
    }
    give_attributes(calls, &device.id, given, had)?;
    Ok(Step::Accepted(Reply::Done))
}
