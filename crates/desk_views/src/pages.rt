//! Pages of lists.

ghost use Rattle.std.specs.Prelude.{◌≡◌, ◌≤◌, ◌-◌, ◌^◌, ℕ, IfErr, IfOk, List, Some, drop, length, min, take};
ghost use Rattle.std.specs.Option.{option_map};
ghost use Rattle.rollout_machine.specs.ByteStrings.{item_numbered};
ghost use Rattle.rollout_machine.specs.CommandList.{CommandList};
ghost use Rattle.rollout_machine.specs.Objects.{page_of};
ghost use Rattle.rollout_machine.specs.Ranges.{numbered};
ghost use Rattle.rollout_machine.specs.Records.{Records, records};
ghost use Rattle.rollout_machine.specs.Validity.{IsValid};
ghost use Rattle.rollout_machine.specs.Views.{listed};
ghost use Rattle.desk_reads.specs.AtLists.{AreOfList, FailsAtListsIn, FailsWith};
ghost use Rattle.desk_store.specs.Changing.{FindsIn, StaysIn};
ghost use Rattle.desk_store.specs.private.Rows.{IfRowsBroken};

use desk_store::{Calls, Fault};
use rollout_model::{Number, Page, PageOf};
use sqlite::Alter;
use std::alloc::Global;

/// What is shown by its number: the k-th of a list has number k.
pub(crate) trait Numbered<S: Alter>: Sized + Drop {
    type Kind: Copy;

    ghost Item: { Type 0 };

    // the list
    ghost items: { Records → List Item };

    // an item as it is shown
    ghost shown: { Records → ℕ → Item → Self };

    // where it is known what is shown
    ghost given: { Records → Type 0 };

    /// How many there are.
    fn read_count(calls: &mut Calls<S>) -> Result<u32, Fault>
        ensures stays { StaysIn S.Store calls.old calls.new result }
        ensures reads { FindsIn S.Store calls.old calls.new result (λ now count. count ≡ length (items now)) }
        ensures fails { FailsAtListsIn S.Store calls.old calls.new result };

    /// The one of a number.
    fn read_shown(calls: &mut Calls<S>, number: &Number<Self::Kind>) -> Result<Option<Self>, Fault>
        ensures stays { StaysIn S.Store calls.old calls.new result }
        ensures reads { FindsIn S.Store calls.old calls.new result
            (λ now found. given now → found ≡ option_map (shown now number.now) (item_numbered (items now) number.now)) }
        ensures fails { FailsAtListsIn S.Store calls.old calls.new result };

    // it is known at lists of accepted commands
    ghost known: { (r : Records) → AreOfList r → given r };

    // .. of which each has few
    ghost few: { (list : CommandList) → IsValid list → length (items (records list)) ≤ 1000 };
}

/// A page of what is shown by its number. Its memory is taken once it is known how many there are.
pub(crate) fn read_page<T: Numbered<S>, S: Alter>(
    alloc: Global,
    calls: &mut Calls<S>,
    page: Page,
) -> Result<PageOf<T>, Fault>
    ensures stays { StaysIn S.Store calls.old calls.new result }
    ensures reads { FindsIn S.Store calls.old calls.new result
        (λ now shown. T.given now → listed shown ≡ page_of page (numbered (T.shown now) 1 (T.items now))) }
    ensures fails { FailsAtListsIn S.Store calls.old calls.new result }
{
    let total = T::read_count(calls)?;
    let mut content = Vec::new(alloc);
    for place in 0..count_on(page, total) {
        let entry = read_entry::<T, S>(calls, page.offset + place + 1)?;
        content.push(entry)?;
    }
    Ok(PageOf { content, total })
}

/// The one of a number up to the last one. Where it isn't there the store has failed.
fn read_entry<T: Numbered<S>, S: Alter>(calls: &mut Calls<S>, number: u32) -> Result<T, Fault>
    ensures stays { StaysIn S.Store calls.old calls.new result }
    ensures reads { FindsIn S.Store calls.old calls.new result
        (λ now entry. T.given now → item_numbered (numbered (T.shown now) 1 (T.items now)) number ≡ Some entry) }
    ensures fails { FailsWith S.Store (λ now. (1 ≤ number) × (number ≤ length (T.items now))) calls.old calls.new result }
{
    let Some(number) = Number::new(number) else {
        return Err(Fault::Broken);
    };
    match T::read_shown(calls, &number)? {
        Some(shown) => Ok(shown),
        None => Err(Fault::Broken),
    }
}

/// How many entries of a list of this length are on the page.
pub(crate) fn count_on(page: Page, total: u32) -> u32
    ensures { result ≡ min page.limit (total - page.offset) }
{
    page.limit.min(total.saturating_sub(page.offset))
}

/// How many entries a list has. Where they are more than are counted, the store has failed.
pub(crate) fn total_of<T>(all: &[T]) -> Result<u32, Fault>
    ensures ok { IfOk result (λ total. total ≡ length all.now) }
    ensures err { IfErr result (λ fault. IfRowsBroken fault (2 ^ 32 ≤ length all.now)) }
{
    match u32::try_from(all.len()) {
        Ok(total) => Ok(total),
        Err(_) => Err(Fault::Broken),
    }
}

/// The entries of a list that are on the page.
pub(crate) fn part_on<T>(all: &[T], page: Page) -> &[T]
    ensures { result.now ≡ take page.limit (drop page.offset all.now) }
{
    let after = &all[all.len().min(page.offset as usize)..];
    &after[..after.len().min(page.limit as usize)]
}
