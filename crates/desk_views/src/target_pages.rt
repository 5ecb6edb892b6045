//! Pages of targets: of all, or of those that match a filter.

ghost use Rattle.std.specs.Prelude.{◌≡◌, [], drop, map, take, true, MatchOption, Some, None};
ghost use Rattle.rollout_machine.specs.Answers.{query_reply};
ghost use Rattle.rollout_machine.specs.Objects.{page_of};
ghost use Rattle.rollout_machine.specs.Requests.{ShowTargets};
ghost use Rattle.rollout_machine.specs.Views.{listed_targets, reply_of};
ghost use Rattle.target_filter.specs.Grammar.{Tree};
ghost use Rattle.target_filter.specs.Profile.{filter_of};
ghost use Rattle.desk_reads.specs.AtLists.{FailsAtListsIn};
ghost use Rattle.desk_views.specs.Targets.{AreEnds, IsContentOf, matching_shown, worded};
ghost use Rattle.desk_records.specs.Targets.{ids_of, in_byte_order};
ghost use Rattle.desk_reads.specs.Targets.{listed_ids, target_listed};
ghost use Rattle.desk_store.specs.Changing.{FindsIn, StaysIn};
ghost use Rattle.desk_store.specs.Counting.{RunsIn};

use crate::pages::total_of;
use crate::targets::{read_targets, with_word};
use desk_reads::{read_all_listed, read_matching};
use desk_store::{Calls, Fault, ListedTarget, read_targets_between};
use rollout_model::{ControllerId, FilterText, Page, PageOf, Refusal, Reply, ShownTarget, Target};
use sqlite::Alter;
use std::alloc::Global;
use target_filter::{Filter, FilterFault, laws};

/// Shows a page of the targets in byte order of their ids: of those that match the filter, or else of all.
pub fn show_targets<S: Alter>(
    alloc: Global,
    calls: &mut Calls<S>,
    filter: &Option<FilterText>,
    page: Page,
) -> Result<Reply, Fault>
    ensures stays { StaysIn S.Store calls.old calls.new result }
    ensures reads { FindsIn S.Store calls.old calls.new result (λ now reply. reply_of reply ≡ query_reply now (ShowTargets filter.now page)) }
    ensures fails { FailsAtListsIn S.Store calls.old calls.new result }
{
    match filter {
        Some(text) => show_matching(alloc, calls, text, page),
        None => show_all(alloc, calls, page),
    }
}

/// Shows a page of all targets.
fn show_all<S: Alter>(alloc: Global, calls: &mut Calls<S>, page: Page) -> Result<Reply, Fault>
    ensures stays { StaysIn S.Store calls.old calls.new result }
    ensures reads { FindsIn S.Store calls.old calls.new result (λ now reply. reply_of reply ≡ query_reply now (ShowTargets None page)) }
    ensures fails { FailsAtListsIn S.Store calls.old calls.new result }
{
    let ids = read_target_ids(calls)?;
    let total = total_of(&ids)?;
    let content = read_known_page(alloc, calls, &ids, page)?;
    Ok(Reply::Targets(PageOf { content, total }))
}

/// The ids of all targets, in byte order.
pub fn read_target_ids<S: Alter>(calls: &mut Calls<S>) -> Result<Vec<ControllerId>, Fault>
    ensures stays { StaysIn S.Store calls.old calls.new result }
    ensures reads { FindsIn S.Store calls.old calls.new result (λ now ids. ids.items ≡ ids_of now.targets) }
    ensures fails { FailsAtListsIn S.Store calls.old calls.new result }
    ensures work { RunsIn 1 calls.old calls.new }
{
    let ids = desk_store::read_target_ids(calls)?;
    Ok(ids)
}

/// The targets on a page of all, whose ids are known: no others are read, however far behind the first target the page is.
pub fn read_known_page<S: Alter>(
    alloc: Global,
    calls: &mut Calls<S>,
    ids: &[ControllerId],
    page: Page,
) -> Result<Vec<ShownTarget>, Fault>
    ensures stays { StaysIn S.Store calls.old calls.new result }
    ensures reads { FindsIn S.Store calls.old calls.new result (λ now content. ids.now ≡ ids_of now.targets → IsContentOf page now content.items) }
    ensures fails { FailsAtListsIn S.Store calls.old calls.new result }
{
    let on = ids_on(ids, page);
    let Some((first, last)) = ends_of(on) else {
        return Ok(Vec::new(alloc));
    };
    let entries = read_targets_between(calls, first.as_str(), last.as_str())?;
    let content = read_entries(alloc, calls, entries)?;
    Ok(content)
}

/// Those of the ids that are on a page.
fn ids_on(ids: &[ControllerId], page: Page) -> &[ControllerId]
    ensures { result.now ≡ take page.limit (drop page.offset ids.now) }
{
    let from = ids.len().min(page.offset as usize);
    let (_, behind) = ids.split_at(from);
    let many = behind.len().min(page.limit as usize);
    let (on, _) = behind.split_at(many);
    on
}

/// The first and the last of some ids.
fn ends_of(ids: &[ControllerId]) -> Option<(ControllerId, ControllerId)>
    ensures { MatchOption result (ids.now ≡ []) (λ ends. AreEnds ids.now ends.0 ends.1) }
{
    let first = ids.first()?;
    let last = ids.last()?;
    Some((*first, *last))
}

/// Targets that were listed in byte order of their ids, as they are shown.
fn read_entries<S: Alter>(
    alloc: Global,
    calls: &mut Calls<S>,
    entries: Vec<ListedTarget>,
) -> Result<Vec<ShownTarget>, Fault>
    ensures stays { StaysIn S.Store calls.old calls.new result }
    ensures reads { FindsIn S.Store calls.old calls.new result
        (λ now content. in_byte_order (listed_ids entries.items) ≡ true
        → content.items ≡ map (worded now) (map (target_listed now) entries.items)) }
    ensures fails { FailsAtListsIn S.Store calls.old calls.new result }
{
    let targets = read_all_listed(calls, entries)?;
    let content = word_all(alloc, calls, targets)?;
    Ok(content)
}

/// Targets as they are shown, each with its word.
fn word_all<S: Alter>(
    alloc: Global,
    calls: &mut Calls<S>,
    targets: Vec<Target>,
) -> Result<Vec<ShownTarget>, Fault>
    ensures stays { StaysIn S.Store calls.old calls.new result }
    ensures reads { FindsIn S.Store calls.old calls.new result (λ now content. content.items ≡ map (worded now) targets.items) }
    ensures fails { FailsAtListsIn S.Store calls.old calls.new result }
{
    let mut content = Vec::new(alloc);
    for target in targets {
        let shown = with_word(calls, target)?;
        match content.push(shown) {
            Ok(()) => {}
            Err(_) => return Err(Fault::Memory),
        }
    }
    Ok(content)
}

/// Shows a page of the targets that match the filter of a text.
fn show_matching<S: Alter>(
    alloc: Global,
    calls: &mut Calls<S>,
    text: &FilterText,
    page: Page,
) -> Result<Reply, Fault>
    ensures stays { StaysIn S.Store calls.old calls.new result }
    ensures reads { FindsIn S.Store calls.old calls.new result (λ now reply. reply_of reply ≡ query_reply now (ShowTargets (Some text.now) page)) }
    ensures fails { FailsAtListsIn S.Store calls.old calls.new result }
{
    let words = text.as_str();
    let filter = match Filter::read(alloc, words) {
        Ok(filter) => filter,
        Err(FilterFault::Memory) => return Err(Fault::Memory),
        Err(_) => return Ok(Reply::Refused(Refusal::BadFilter)),
    };
    laws::computed_filter();
    let shown = read_matching_page(alloc, calls, &filter, page)?;
    Ok(Reply::Targets(shown))
}

/// The page of the targets that match. What they have is read only of those on the page, of each by its id, since others may stand between
/// them.
fn read_matching_page<S: Alter>(
    alloc: Global,
    calls: &mut Calls<S>,
    filter: &Filter,
    page: Page,
) -> Result<PageOf<ShownTarget>, Fault>
    ensures stays { StaysIn S.Store calls.old calls.new result }
    ensures reads { FindsIn S.Store calls.old calls.new result
        (λ now shown. (f : Tree) → filter_of filter.now ≡ Some f → listed_targets shown ≡ page_of page (matching_shown now f)) }
    ensures fails { FailsAtListsIn S.Store calls.old calls.new result }
{
    let ids = read_matching(calls, filter)?;
    let total = total_of(&ids)?;
    let content = read_targets(alloc, calls, ids_on(&ids, page))?;
    Ok(PageOf { content, total })
}
