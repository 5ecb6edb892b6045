//! The groups of a rollout.

ghost use Rattle.std.specs.Prelude.{◌≡◌, ◌≤◌, IfOk};
ghost use Rattle.rollout_machine.specs.Groups.{bounds_of, cut};

use rollout_machine::Bounds;
use std::alloc::{AllocError, Global};

/// The bounds of a group, counted from 1: of m members in n groups, group i holds the positions from
/// floor((i - 1) m / n) + 1 to floor(i m / n), so that no two sizes differ by more than one and no group is empty. Takes
/// no memory.
pub fn group_bounds(members: u32, group: u32, groups: u32) -> Bounds
    requires some { 1 ≤ groups }
    requires enough { groups ≤ members }
    requires first { 1 ≤ group }
    requires last { group ≤ groups }
    ensures { result ≡ bounds_of members groups group }
{
    let members = members as u64;
    let groups = groups as u64;
    let group = group as u64;
    let before = (group - 1) * members / groups;
    let last = group * members / groups;
    Bounds {
        first: before as u32 + 1,
        last: last as u32,
    }
}

/// The bounds of all groups, in order.
pub fn cut_groups(alloc: Global, members: u32, groups: u32) -> Result<Vec<Bounds>, AllocError>
    requires some { 1 ≤ groups }
    requires enough { groups ≤ members }
    ensures { IfOk result (λ cuts. cuts.items ≡ cut members groups) }
{
    let mut cuts = Vec::new(alloc);
    for i in 0..groups {
        cuts.push(group_bounds(members, i + 1, groups))?;
    }
    Ok(cuts)
}
