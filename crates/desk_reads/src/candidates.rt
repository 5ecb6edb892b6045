//! Targets among which those are that a filter matches.

ghost use Rattle.std.specs.Prelude.{◌≡◌, IfErr, IfOk, IfSome};
ghost use Rattle.std.specs.Option.{IsSomeAnd};
ghost use Rattle.std.specs.String.{string_bytes};
ghost use Rattle.sql_calls.specs.declared.fault.Fault.TheVariants.{Memory};
ghost use Rattle.target_filter.specs.Profile.{filter_of};
ghost use Rattle.desk_reads.specs.AtLists.{FailsAtListsIn};
ghost use Rattle.desk_reads.specs.private.Candidates.{AreBegun, AreCandidates, IsNextTo};
ghost use Rattle.desk_reads.specs.Targets.{listed_ids};
ghost use Rattle.desk_store.specs.Changing.{FindsIn, StaysIn};
ghost use Rattle.desk_store.specs.Counting.{RunsIn};

use desk_store::{
    Calls, Fault, ListedTarget, read_all_targets, read_target_ids, read_targets_between,
};
use rollout_model::{ControllerId, Text};
use sqlite::Alter;
use std::alloc::Global;
use std::str;
use target_filter::Filter;

/// Targets in byte order of their ids, and among them all that match: where the filter says how an id begins, few others are read. By
/// one statement, which reads ids alone where the filter neither says that nor names names.
pub(crate) fn read_candidates<S: Alter>(
    calls: &mut Calls<S>,
    filter: &Filter,
) -> Result<Vec<ListedTarget>, Fault>
    ensures stays { StaysIn S.Store calls.old calls.new result }
    ensures reads { FindsIn S.Store calls.old calls.new result
        (λ now listed. IsSomeAnd (filter_of filter.now) (λ f. AreCandidates now f listed.items)) }
    ensures fails { FailsAtListsIn S.Store calls.old calls.new result }
    ensures work { RunsIn 1 calls.old calls.new }
{
    let start = filter.id_start();
    if start.is_empty() && !filter.names_names() {
        let ids = read_target_ids(calls)?;
        let all = unnamed(calls.alloc(), ids)?;
        return Ok(all);
    }
    let listed = read_begun(calls, start)?;
    Ok(listed)
}

/// The targets of these ids, each under a name that stands for any.
fn unnamed(alloc: Global, ids: Vec<ControllerId>) -> Result<Vec<ListedTarget>, Fault>
    ensures ok { IfOk result (λ listed. listed_ids listed.items ≡ ids.items) }
    ensures err { IfErr result (λ fault. fault ≡ Memory) }
{
    let mut listed = Vec::new(alloc);
    for id in ids {
        let name = Text::read(alloc, "-")?;
        listed.push(ListedTarget {
            id,
            name: name.unwrap(),
        })?;
    }
    Ok(listed)
}

/// The targets whose ids begin with these bytes, and perhaps others.
fn read_begun<S: Alter>(calls: &mut Calls<S>, start: &[u8]) -> Result<Vec<ListedTarget>, Fault>
    ensures stays { StaysIn S.Store calls.old calls.new result }
    ensures reads { FindsIn S.Store calls.old calls.new result (λ now listed. AreBegun now start.now listed.items) }
    ensures fails { FailsAtListsIn S.Store calls.old calls.new result }
    ensures work { RunsIn 1 calls.old calls.new }
{
    let Ok(first) = str::from_utf8(start) else {
        let all = read_all_targets(calls)?;
        return Ok(all);
    };
    let listed = read_from(calls, first)?;
    Ok(listed)
}

/// The targets whose ids begin with this text, and perhaps others: those from the text to the next one, or all where there is none.
fn read_from<S: Alter>(calls: &mut Calls<S>, first: &str) -> Result<Vec<ListedTarget>, Fault>
    ensures stays { StaysIn S.Store calls.old calls.new result }
    ensures reads { FindsIn S.Store calls.old calls.new result (λ now listed. AreBegun now first.now listed.items) }
    ensures fails { FailsAtListsIn S.Store calls.old calls.new result }
    ensures work { RunsIn 1 calls.old calls.new }
{
    let next = next_to(calls.alloc(), first)?;
    let Some(last) = next else {
        let all = read_all_targets(calls)?;
        return Ok(all);
    };
    let listed = read_targets_between(calls, first, last.as_str())?;
    Ok(listed)
}

/// The text whose last byte is greater by one, where that is a text. No text that begins with the first one is behind it.
fn next_to(alloc: Global, first: &str) -> Result<Option<String>, Fault>
    ensures ok { IfOk result (λ next. IfSome next (λ second. IsNextTo first.now (string_bytes second))) }
    ensures err { IfErr result (λ fault. fault ≡ Memory) }
{
    let mut bytes = Vec::new(alloc);
    bytes.extend_from_slice(first.as_bytes())?;
    let Some(byte) = bytes.pop() else {
        return Ok(None);
    };
    let Some(greater) = byte.checked_add(1) else {
        return Ok(None);
    };
    bytes.push(greater)?;
    Ok(String::from_utf8(bytes).ok())
}
