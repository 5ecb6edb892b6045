//! The check of the table of artifacts.

ghost use Rattle.std.specs.List.{AllByRecursion};
ghost use Rattle.desk_records.specs.Schema.{Pieces};
ghost use Rattle.desk_store.specs.Blaming.{BlamesGiven, ReadsOf};
ghost use Rattle.desk_store.specs.Changing.{FindsTables, StaysIn};
ghost use Rattle.desk_verify.specs.Agreement.{SettlesWhether};
ghost use Rattle.desk_verify.specs.Artifacts.{AgreesArtifacts, IsWhole};

use crate::contents::{count_pieces, hash_pieces};
use desk_store::{Calls, CheckedArtifact, Fault, find_pieces, list_all_artifacts};
use sqlite::Alter;

/// Whether the table of artifacts agrees.
pub(crate) fn check_artifacts<S: Alter>(calls: &mut Calls<S>) -> Result<bool, Fault>
    ensures stays { StaysIn S.Store calls.old calls.new result }
    ensures judges { FindsTables S.Store calls.old calls.new result (λ t agrees. SettlesWhether (AgreesArtifacts t) agrees) }
    ensures blames { BlamesGiven S.Store (ReadsOf Pieces) calls.old calls.new result }
{
    let Some(artifacts) = list_all_artifacts(calls)? else {
        return Ok(false);
    };
    are_whole(calls, &artifacts)
}

/// Whether each of the artifacts is whole.
fn are_whole<S: Alter>(calls: &mut Calls<S>, artifacts: &[CheckedArtifact]) -> Result<bool, Fault>
    ensures stays { StaysIn S.Store calls.old calls.new result }
    ensures judges { FindsTables S.Store calls.old calls.new result (λ t whole. SettlesWhether (AllByRecursion (IsWhole t) artifacts.now) whole) }
    ensures blames { BlamesGiven S.Store (ReadsOf Pieces) calls.old calls.new result }
{
    for artifact in artifacts {
        if !is_whole(calls, artifact)? {
            return Ok(false);
        }
    }
    Ok(true)
}

/// Whether some contents have the size and the digest of the artifact, and it has their pieces and no more.
fn is_whole<S: Alter>(calls: &mut Calls<S>, checked: &CheckedArtifact) -> Result<bool, Fault>
    ensures stays { StaysIn S.Store calls.old calls.new result }
    ensures judges { FindsTables S.Store calls.old calls.new result (λ t whole. SettlesWhether (IsWhole t checked.now) whole) }
    ensures blames { BlamesGiven S.Store (ReadsOf Pieces) calls.old calls.new result }
{
    let Some(digest) = hash_pieces(calls, checked.number, checked.artifact.size)? else {
        return Ok(false);
    };
    if digest != checked.artifact.digest {
        return Ok(false);
    }
    let behind = find_pieces(
        calls,
        checked.number,
        count_pieces(checked.artifact.size) + 1,
    )?;
    Ok(behind.is_empty())
}
