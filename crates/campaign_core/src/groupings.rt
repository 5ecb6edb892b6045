//! The groups of a rollout as its plan has them, even or defined.

ghost use Rattle.std.specs.Prelude.{◌≡◌, ◌≤◌, false, is_some, length, IfOk};
ghost use Rattle.rollout_machine.specs.Groupings.{cut_by, leaves_empty, percentages};
ghost use Rattle.rollout_machine.specs.Splits.{first_empty, split};
ghost use Rattle.rollout_model.specs.Limits.{limits};

use crate::groups::cut_groups;
use crate::splits::{share, split_groups};
use rollout_machine::Bounds;
use rollout_model::{GroupDefinition, Grouping, Percentage};
use std::alloc::{AllocError, Global};

/// Whether nothing is left before some group.
fn runs_out(members: u32, definitions: &[GroupDefinition]) -> bool
    ensures { result ≡ is_some (first_empty members (percentages definitions.now)) }
{
    let mut rest = members;
    for definition in definitions {
        if rest == 0 {
            return true;
        }
        rest -= share(rest, definition.percentage);
    }
    false
}

/// Whether some group of so many members would be empty. Takes no memory.
pub fn leaves_empty(groups: &Grouping, members: u32) -> bool
    ensures { result ≡ leaves_empty groups.now members }
{
    match groups.definitions() {
        [] => members < groups.count().get(),
        definitions => runs_out(members, definitions),
    }
}

/// The percentages of the groups, in their order.
fn percentages(
    alloc: Global,
    definitions: &[GroupDefinition],
) -> Result<Vec<Percentage>, AllocError>
    ensures { IfOk result (λ all. all.items ≡ percentages definitions.now) }
{
    let mut all = Vec::with_capacity(alloc, definitions.len())?;
    for definition in definitions {
        all.push(definition.percentage)?;
    }
    Ok(all)
}

/// The bounds of defined groups, of which none is empty.
fn split_defined(
    alloc: Global,
    members: u32,
    definitions: &[GroupDefinition],
) -> Result<Vec<Bounds>, AllocError>
    requires few { length definitions.now ≤ limits.groups }
    ensures { IfOk result (λ groups. groups.items ≡ split members (percentages definitions.now)) }
{
    let percentages = percentages(alloc, definitions)?;
    match split_groups(alloc, members, &percentages) {
        Ok(groups) => Ok(groups),
        Err(_) => Err(AllocError),
    }
}

/// The bounds of all groups of a rollout, in order, where none of them would be empty.
pub fn cut_grouping(
    alloc: Global,
    members: u32,
    groups: &Grouping,
) -> Result<Vec<Bounds>, AllocError>
    requires none_empty { leaves_empty groups.now members ≡ false }
    ensures { IfOk result (λ cuts. cuts.items ≡ cut_by groups.now members) }
{
    match groups.definitions() {
        [] => cut_groups(alloc, members, groups.count().get()),
        definitions => split_defined(alloc, members, definitions),
    }
}
