//! The counts of a line of a report.

ghost use Rattle.std.specs.Prelude.{◌≡◌, ◌++◌, ◌^◌, string_bytes, OnOk};
ghost use Rattle.desk_files.specs.Counts.{AreUpTo, counts_of, counts_text, counts_together, total_counts};

use crate::columns::push_right;
use rollout_model::Group;
use std::alloc::{AllocError, Global};

/// Members, and how many of them have which outcome. Their type is wide enough for the sums of any groups.
#[derive(Clone, Copy)]
pub(crate) struct Counts {
    pub(crate) size: u128,
    pub(crate) ok: u128,
    pub(crate) bad: u128,
    pub(crate) gone: u128,
    pub(crate) undecided: u128,
}

/// The counts of a group.
pub(crate) fn group_counts(group: &Group) -> Counts
    ensures value { result ≡ counts_of group.now }
    ensures small { AreUpTo (2 ^ 32) result }
{
    let undecided = group
        .size
        .saturating_sub(group.ok)
        .saturating_sub(group.bad)
        .saturating_sub(group.gone);
    Counts {
        size: u128::from(group.size),
        ok: u128::from(group.ok),
        bad: u128::from(group.bad),
        gone: u128::from(group.gone),
        undecided: u128::from(undecided),
    }
}

fn together(a: Counts, b: Counts) -> Counts
    requires left { AreUpTo (2 ^ 96) a }
    requires right { AreUpTo (2 ^ 96) b }
    ensures { result ≡ counts_together a b }
{
    Counts {
        size: a.size + b.size,
        ok: a.ok + b.ok,
        bad: a.bad + b.bad,
        gone: a.gone + b.gone,
        undecided: a.undecided + b.undecided,
    }
}

/// The sums of the groups' counts.
pub(crate) fn total_counts(groups: &[Group]) -> Counts
    ensures { result ≡ total_counts groups.now }
{
    let mut total = Counts {
        size: 0,
        ok: 0,
        bad: 0,
        gone: 0,
        undecided: 0,
    };
    for group in groups {
        total = together(total, group_counts(group));
    }
    total
}

/// Adds the counts to a line, each on the right of 6 places.
pub(crate) fn push_counts(
    alloc: Global,
    text: &mut String,
    counts: Counts,
) -> Result<(), AllocError>
    ensures { OnOk result (string_bytes text.new ≡ string_bytes text.old ++ counts_text counts) }
{
    push_right(alloc, text, 6, counts.size)?;
    push_right(alloc, text, 6, counts.ok)?;
    push_right(alloc, text, 6, counts.bad)?;
    push_right(alloc, text, 6, counts.gone)?;
    push_right(alloc, text, 6, counts.undecided)?;
    Ok(())
}
