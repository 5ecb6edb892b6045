//! The groups of a rollout that is split by percentages.

ghost use Rattle.std.specs.Prelude.{◌≡◌, ◌≤◌, ◌⊎◌, IfOk, IfErr, None, Some, length};
ghost use Rattle.rollout_machine.specs.Splits.{LeavesNoneEmpty, first_empty, share, split, split_bounds_of, split_last};
ghost use Rattle.rollout_model.specs.Limits.{limits};

use rollout_machine::Bounds;
use rollout_model::Percentage;
use std::alloc::Global;

/// Why members aren't split.
#[derive(Clone, Copy, PartialEq, Eq)]
pub enum SplitFault {
    /// Nothing is left before the group of this number, which is the first such.
    Empty(u32),
    Memory,
}

/// How many of those that are left a group takes: its percentage of them, rounded up.
pub(crate) fn share(rest: u32, percentage: Percentage) -> u32
    ensures share { result ≡ share rest percentage }
    ensures few { result ≤ rest }
{
    let parts = rest as u64 * percentage.get() as u64;
    ((parts + 99) / 100) as u32
}

/// The bounds of a group, counted from 1, where each group takes its percentage, rounded up, of what the groups before it leave. Takes no
/// memory.
pub fn split_bounds(members: u32, percentages: &[Percentage], group: u32) -> Bounds
    requires none_empty { LeavesNoneEmpty members percentages.now }
    requires first { 1 ≤ group }
    requires last { group ≤ length percentages.now }
    ensures { result ≡ split_bounds_of members percentages.now group }
{
    let before = split_last(members, percentages, group - 1);
    let last = split_last(members, percentages, group);
    Bounds {
        first: before + 1,
        last,
    }
}

/// The last position of a group, and 0 before the first.
fn split_last(members: u32, percentages: &[Percentage], group: u32) -> u32
    requires there { group ≤ length percentages.now }
    ensures { result ≡ split_last members percentages.now group }
{
    let mut last = 0;
    for i in 0..group {
        last += share(members - last, percentages[i as usize]);
    }
    last
}

/// The bounds of all groups, in order; `Empty` names the first group that would be empty.
pub fn split_groups(
    alloc: Global,
    members: u32,
    percentages: &[Percentage],
) -> Result<Vec<Bounds>, SplitFault>
    requires few { length percentages.now ≤ limits.groups }
    ensures split { IfOk result (λ groups. groups.items ≡ split members percentages.now) }
    ensures none_empty { IfOk result (λ groups. first_empty members percentages.now ≡ None) }
    ensures empty { IfErr result (λ fault. (fault ≡ SplitFault.Memory)
        ⊎ ((i : _) × (fault ≡ SplitFault.Empty i) × (first_empty members percentages.now ≡ Some i))) }
{
    let mut groups = Vec::new(alloc);
    let mut last = 0;
    let mut number = 0;
    for percentage in percentages {
        number += 1;
        if last == members {
            return Err(SplitFault::Empty(number));
        }
        let first = last + 1;
        last += share(members - last, *percentage);
        match groups.push(Bounds { first, last }) {
            Ok(()) => {}
            Err(_) => return Err(SplitFault::Memory),
        }
    }
    Ok(groups)
}
