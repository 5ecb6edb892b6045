//! The attributes of targets, in a change that is under way.

ghost use Rattle.std.specs.Prelude.{◌≡◌, flat_map};
ghost use Rattle.rollout_machine.specs.Verdicts.{target_of};
ghost use Rattle.desk_records.specs.TargetRow.{owned_attributes};
ghost use Rattle.desk_records.specs.Targets.{AddsAttribute, SetsAttribute, attributes_of, targets_between};
ghost use Rattle.desk_store.specs.Counting.{AddsIn, RunsIn};
ghost use Rattle.desk_store.specs.Changing.{FindsIn, MakesIn, StaysIn};
ghost use Rattle.desk_store.specs.Failing.{FailsIn, WritesIn};

use crate::reading::{read_all, read_attributes};
use crate::statements::{ask, run};
use desk_records::{
    LIST_ATTRIBUTES_BETWEEN, LIST_TARGET_ATTRIBUTES, OwnedAttribute, PUT_TARGET_ATTRIBUTE,
    SET_TARGET_ATTRIBUTE,
};
use rollout_model::{Attribute, Attributes, ControllerId};
use sql_calls::{Calls, Fault};
use sqlite::{Alter, params};

/// The attributes of the target of an id, by their keys in byte order; none where there is no such target. A row that
/// breaks a column's rule is `Broken`.
pub fn read_target_attributes<S: Alter>(
    calls: &mut Calls<S>,
    id: &ControllerId,
) -> Result<Attributes, Fault>
    ensures stays { StaysIn S.Store calls.old calls.new result }
    ensures reads { FindsIn S.Store calls.old calls.new result (λ r attributes. attributes ≡ attributes_of (target_of r id.now)) }
    ensures fails { FailsIn S.Store calls.old calls.new result }
    ensures work { RunsIn 1 calls.old calls.new }
{
    let alloc = calls.alloc();
    let rows = ask(calls, LIST_TARGET_ATTRIBUTES, params![id.as_str()])?;
    read_attributes(alloc, &rows)
}

/// The attributes of the targets from an id to another, each with its target's id: in byte order of the ids, and then of the keys. A
/// row that breaks a column's rule is `Broken`.
pub fn read_attributes_between<S: Alter>(
    calls: &mut Calls<S>,
    first: &ControllerId,
    last: &ControllerId,
) -> Result<Vec<OwnedAttribute>, Fault>
    ensures stays { StaysIn S.Store calls.old calls.new result }
    ensures reads { FindsIn S.Store calls.old calls.new result
        (λ r attributes. attributes.items ≡ flat_map owned_attributes (targets_between first.now last.now r)) }
    ensures fails { FailsIn S.Store calls.old calls.new result }
    ensures work { RunsIn 1 calls.old calls.new }
{
    let alloc = calls.alloc();
    let rows = ask(
        calls,
        LIST_ATTRIBUTES_BETWEEN,
        params![first.as_str(), last.as_str()],
    )?;
    read_all(alloc, &rows)
}

/// Gives a target that is there an attribute of a key that it hasn't.
pub fn write_target_attribute<S: Alter>(
    calls: &mut Calls<S>,
    id: &ControllerId,
    attribute: &Attribute,
) -> Result<(), Fault>
    ensures stays { WritesIn S.Store calls.old calls.new result }
    ensures writes { MakesIn S.Store calls.old calls.new result
        (AddsAttribute id.now attribute.now) }
    ensures work { AddsIn 1 0 calls.old calls.new }
{
    run(
        calls,
        PUT_TARGET_ATTRIBUTE,
        params![
            id.as_str(),
            attribute.key.as_str(),
            attribute.value.as_str()
        ],
    )
}

/// Gives the attribute of a target that has this key another value.
pub fn change_target_attribute<S: Alter>(
    calls: &mut Calls<S>,
    id: &ControllerId,
    attribute: &Attribute,
) -> Result<(), Fault>
    ensures stays { WritesIn S.Store calls.old calls.new result }
    ensures writes { MakesIn S.Store calls.old calls.new result
        (SetsAttribute id.now attribute.now) }
    ensures work { AddsIn 1 0 calls.old calls.new }
{
    run(
        calls,
        SET_TARGET_ATTRIBUTE,
        params![
            id.as_str(),
            attribute.key.as_str(),
            attribute.value.as_str()
        ],
    )
}
