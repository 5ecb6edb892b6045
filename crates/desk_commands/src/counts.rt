//! Counts of notes, entries, numbers and outcomes.

ghost use Rattle.std.specs.Prelude.{◌≡◌, ◌+◌, cond, MatchResult};
ghost use Rattle.sql_calls.specs.declared.fault.Fault.TheVariants.{Broken};
ghost use Rattle.desk_commands.specs.private.Counts.{CountsTo, HasRoom, counts_after};

use crate::endings::own_after;
use crate::seen_actions::SeenAction;
use crate::telling::{Told, entries_with, notes_with, numbers_with};
use campaign_core::ActionChange;
use desk_store::Fault;
use rollout_machine::GroupRecord;

/// What is counted once an action is told of and changed.
#[derive(Clone, Copy)]
pub(crate) struct Counts {
    pub(crate) notes: u32,
    pub(crate) entries: u32,
    /// Of the action, or 0 where what was told bears none.
    pub(crate) numbers: u32,
    /// The action's group.
    pub(crate) own: GroupRecord,
}

/// One more of what a row counts. More than it can count is `Broken`.
pub(crate) fn one_more(count: u32) -> Result<u32, Fault>
    ensures { CountsTo (count + 1) result }
{
    count.checked_add(1).ok_or(Fault::Broken)
}

/// One more where it is.
pub(crate) fn more_if(is: bool, count: u32) -> Result<u32, Fault>
    ensures { CountsTo (count + cond is 1 0) result }
{
    if is { one_more(count) } else { Ok(count) }
}

/// What is counted once the action is told of and changed so. It is known before anything is written, so that no write counts.
pub(crate) fn counts_after(
    seen: &SeenAction,
    after: &ActionChange,
    told: &Option<Told>,
) -> Result<Counts, Fault>
    ensures { MatchResult result
        (λ counts. counts ≡ counts_after seen.now after.now told.now)
        (λ e. (e ≡ Broken) × (HasRoom seen.now after.now told.now → ⊥)) }
{
    let notes = notes_with(seen.action.notes, told)?;
    let entries = entries_with(seen.action.entries, told)?;
    let numbers = numbers_with(told)?;
    let own = own_after(seen, after)?;
    Ok(Counts {
        notes,
        entries,
        numbers,
        own,
    })
}
