//! Targets: putting rows of them.

ghost use Rattle.std.specs.Prelude.{◌≡◌, ◌<◌, None, Some, IfNone, IfSome, length};
ghost use Rattle.rollout_machine.specs.Commands.{PutTargets};
ghost use Rattle.desk_commands.specs.private.Imports.{AddsTags, CountsTargets, DropsTags, PutsAll, PutsOver, PutsRow, Renames, Retags};
ghost use Rattle.desk_store.specs.Changing.{FindsIn, MakesIn, StaysIn, seen_in};
ghost use Rattle.desk_commands.specs.Changing.{StepsIn};
ghost use Rattle.desk_commands.specs.Failures.{ChangesRow, FailsStepIn, FailsWriting, FailsWritingIn, TakesRow, TakesRows};
ghost use Rattle.desk_reads.specs.AtLists.{FailsAtListsIn};
ghost use Rattle.desk_store.specs.Failing.{WritesIn};

use crate::step::Step;
use campaign_core::ImportView;
use desk_store::{
    Calls, Fault, StoredTarget, change_target, drop_target_tag, read_target, read_target_count,
    read_target_tags, write_target, write_target_tag,
};
use rollout_model::{ControllerId, Refusal, Reply, Tags, TargetRow, TargetRows, Word};
use sqlite::Alter;

/// Takes from a target the tags that it had and that aren't wanted.
fn drop_tags<S: Alter>(
    calls: &mut Calls<S>,
    id: &ControllerId,
    had: &[Word],
    wanted: &[Word],
) -> Result<(), Fault>
    ensures stays { WritesIn S.Store calls.old calls.new result }
    ensures writes { MakesIn S.Store calls.old calls.new result (DropsTags id.now had.now wanted.now) }
{
    match had {
        [] => Ok(()),
        [first, rest @ ..] => {
            if wanted.contains(first) {
                return drop_tags(calls, id, rest, wanted);
            }
            drop_target_tag(calls, id, first)?;
            drop_tags(calls, id, rest, wanted)
        }
    }
}

/// Gives a target those of the tags that it hadn't.
fn add_tags<S: Alter>(
    calls: &mut Calls<S>,
    id: &ControllerId,
    tags: &[Word],
    had: &[Word],
) -> Result<(), Fault>
    ensures stays { WritesIn S.Store calls.old calls.new result }
    ensures writes { MakesIn S.Store calls.old calls.new result (AddsTags id.now tags.now had.now) }
{
    match tags {
        [] => Ok(()),
        [first, rest @ ..] => {
            if had.contains(first) {
                return add_tags(calls, id, rest, had);
            }
            write_target_tag(calls, id, first)?;
            add_tags(calls, id, rest, had)
        }
    }
}

/// Gives a target that is there these tags in place of those that it has.
fn retag<S: Alter>(calls: &mut Calls<S>, id: &ControllerId, tags: &Tags) -> Result<(), Fault>
    ensures stays { StaysIn S.Store calls.old calls.new result }
    ensures writes { MakesIn S.Store calls.old calls.new result (Retags id.now tags.now) }
    ensures fails { FailsWritingIn S.Store calls.old calls.new result }
{
    let had = read_target_tags(calls, id)?;
    drop_tags(calls, id, &had, tags.as_slice())?;
    add_tags(calls, id, tags.as_slice(), &had)
}

/// Gives the target of a row the row's name and digest, where it is kept otherwise.
fn rename<S: Alter>(
    calls: &mut Calls<S>,
    row: &TargetRow,
    stored: &StoredTarget,
) -> Result<(), Fault>
    ensures stays { WritesIn S.Store calls.old calls.new result }
    ensures writes { MakesIn S.Store calls.old calls.new result (Renames row.now stored.now) }
{
    if stored.name == row.name && stored.digest == row.digest {
        return Ok(());
    }
    change_target(calls, &row.id, &row.name, &row.digest)
}

/// Puts the row of a target that isn't there.
fn add_row<S: Alter>(calls: &mut Calls<S>, row: &TargetRow) -> Result<(), Fault>
    ensures stays { WritesIn S.Store calls.old calls.new result }
    ensures writes { MakesIn S.Store calls.old calls.new result (PutsOver None row.now) }
{
    write_target(calls, &row.id, &row.name, &row.digest)?;
    add_tags(calls, &row.id, row.tags.as_slice(), &[])
}

/// Puts the row of a target of which this is kept.
fn change_row<S: Alter>(
    calls: &mut Calls<S>,
    row: &TargetRow,
    stored: &StoredTarget,
) -> Result<(), Fault>
    ensures stays { StaysIn S.Store calls.old calls.new result }
    ensures writes { MakesIn S.Store calls.old calls.new result (PutsOver (Some stored.now) row.now) }
    ensures fails { FailsWriting S.Store (ChangesRow row.now stored.now) calls.old calls.new result }
{
    rename(calls, row, stored)?;
    retag(calls, &row.id, &row.tags)
}

/// How many targets there are. They are counted where that isn't known yet.
fn count_targets<S: Alter>(calls: &mut Calls<S>, counted: Option<u32>) -> Result<u32, Fault>
    ensures stays { StaysIn S.Store calls.old calls.new result }
    ensures reads { FindsIn S.Store calls.old calls.new result (CountsTargets counted) }
    ensures fails { FailsAtListsIn S.Store calls.old calls.new result }
{
    match counted {
        Some(known) => return Ok(known),
        None => {}
    }
    let count = read_target_count(calls)?;
    Ok(count)
}

/// Puts one row: a new target, or the name, the digest and the tags of the one that is there. Gives how many targets there are then, where
/// they are counted; a new one is refused where there would be too many.
fn put_row<S: Alter>(
    calls: &mut Calls<S>,
    row: &TargetRow,
    counted: Option<u32>,
) -> Result<Result<Option<u32>, Refusal>, Fault>
    ensures stays { StaysIn S.Store calls.old calls.new result }
    ensures puts { PutsRow (seen_in S.Store calls.old) (seen_in S.Store calls.new) row.now counted result }
    ensures fails { FailsWriting S.Store (TakesRow row.now) calls.old calls.new result }
{
    let found = read_target(calls, &row.id)?;
    match &found {
        Some(stored) => {
            change_row(calls, row, stored)?;
            Ok(Ok(counted))
        }
        None => {
            let count = count_targets(calls, counted)?;
            let count_after = count.saturating_add(1);
            match campaign_core::put_targets(&ImportView { count_after }) {
                Ok(()) => {}
                Err(refusal) => return Ok(Err(refusal)),
            }
            add_row(calls, row)?;
            Ok(Ok(Some(count_after)))
        }
    }
}

/// Puts rows one after the other, up to the first one that is refused. Each row's target is read once; the targets are counted at the first
/// new one alone, since
/// that takes longer the more there are.
fn put_rows<S: Alter>(calls: &mut Calls<S>, rows: &[TargetRow]) -> Result<Option<Refusal>, Fault>
    ensures stays { StaysIn S.Store calls.old calls.new result }
    ensures puts { PutsAll (seen_in S.Store calls.old) (seen_in S.Store calls.new) rows.now result }
    ensures fails { FailsWriting S.Store (TakesRows rows.now) calls.old calls.new result }
{
    let mut counted = None;
    for row in rows {
        match put_row(calls, row, counted)? {
            Ok(then) => counted = then,
            Err(refusal) => return Ok(Some(refusal)),
        }
    }
    Ok(None)
}

/// How many rows there are, where a reply can tell it: up to 4,294,967,295.
fn count_of(rows: &[TargetRow]) -> Option<u32>
    ensures some { IfSome result (λ count. count ≡ length rows.now) }
    ensures none { IfNone result (4294967295 < length rows.now) }
{
    match u32::try_from(rows.len()) {
        Ok(count) => Some(count),
        Err(_) => None,
    }
}

/// Puts rows of targets. Its reply takes no memory; more than 4,294,967,295 rows, whose number no reply tells, are refused as if for want of it.
pub(crate) fn put_targets<S: Alter>(calls: &mut Calls<S>, rows: &TargetRows) -> Result<Step, Fault>
    ensures stays { StaysIn S.Store calls.old calls.new result }
    ensures steps { StepsIn S.Store calls.old calls.new (PutTargets rows.now) result }
    ensures fails { FailsStepIn S.Store calls.old calls.new result }
{
    let rows = rows.as_slice();
    let Some(count) = count_of(rows) else {
        return Err(Fault::Memory);
    };
    match put_rows(calls, rows)? {
        Some(refusal) => Ok(Step::Refused(refusal)),
        None => Ok(Step::Accepted(Reply::TargetsPut(count))),
    }
}
