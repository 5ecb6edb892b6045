//! Artifacts: adding one.

ghost use Rattle.std.specs.Prelude.{◌≡◌, ◌≤◌, ◌+◌, ◌*◌, length};
ghost use Rattle.rollout_machine.specs.Commands.{AddArtifact};
ghost use Rattle.rollout_machine.specs.Digests.{digest_of};
ghost use Rattle.rollout_machine.specs.Verdicts.{wrong_digest};
ghost use Rattle.rollout_model.specs.Limits.{limits};
ghost use Rattle.campaign_core.specs.Checks.{IsArtifactView};
ghost use Rattle.desk_commands.specs.private.Additions.{AddsArtifact, AddsContents};
ghost use Rattle.desk_store.specs.Changing.{FindsIn, MakesIn, StaysIn};
ghost use Rattle.desk_commands.specs.Changing.{StepsIn};
ghost use Rattle.desk_reads.specs.AtLists.{FailsAtListsIn};
ghost use Rattle.desk_commands.specs.Failures.{FailsStepIn};
ghost use Rattle.desk_store.specs.Failing.{WritesIn};

use crate::step::Step;
use artifact_pieces::describe;
use campaign_core::ArtifactView;
use desk_store::{
    Calls, Fault, read_last_artifact, read_last_module, read_module_artifacts,
    read_module_is_locked, read_same_artifact, write_artifact, write_piece,
};
use rollout_model::limits::PIECE_LENGTH;
use rollout_model::{Artifact, ArtifactNo, Contents, Digest, ModuleNo, Reply, Upload};
use sqlite::Alter;

/// Whether an upload names a digest, and this is another.
fn names_another(upload: &Upload, digest: &Digest) -> bool
    ensures { digest.now ≡ digest_of upload.now.contents → result ≡ wrong_digest upload.now }
{
    match &upload.expected {
        Some(expected) => expected != digest,
        None => false,
    }
}

/// What the verdict on an upload rests on.
fn read_view<S: Alter>(calls: &mut Calls<S>, upload: &Upload) -> Result<ArtifactView, Fault>
    ensures stays { StaysIn S.Store calls.old calls.new result }
    ensures reads { FindsIn S.Store calls.old calls.new result (λ r view. IsArtifactView view upload.now r) }
    ensures fails { FailsAtListsIn S.Store calls.old calls.new result }
{
    let last_module = read_last_module(calls)?;
    let locked = read_module_is_locked(calls, upload.module_number)?;
    let same = read_same_artifact(calls, upload.module_number, &upload.filename)?;
    let of_module = read_module_artifacts(calls, upload.module_number)?;
    let count = read_last_artifact(calls)?;
    let described = describe(upload.contents.as_slice());
    Ok(ArtifactView {
        misses_module: upload.module_number.get() > last_module,
        locked,
        same,
        module_count: of_module.len(),
        count,
        wrong_digest: names_another(upload, &described.digest),
        size: described.size as u32,
        digest: described.digest,
    })
}

/// Adds these bytes, piece by piece, to the contents of the last artifact, which have so many whole pieces before them.
fn write_pieces<S: Alter>(
    calls: &mut Calls<S>,
    number: ArtifactNo,
    before: u32,
    bytes: &[u8],
) -> Result<(), Fault>
    requires { before * limits.piece_length + length bytes.now ≤ limits.artifact_size }
    ensures stays { WritesIn S.Store calls.old calls.new result }
    ensures writes { MakesIn S.Store calls.old calls.new result (AddsContents number before bytes.now) }
{
    if bytes.is_empty() {
        return Ok(());
    }
    let (piece, rest) = bytes.split_at(PIECE_LENGTH.min(bytes.len()));
    write_piece(calls, number, before + 1, piece)?;
    write_pieces(calls, number, before + 1, rest)
}

/// Writes an artifact with all its contents.
fn write_whole<S: Alter>(
    calls: &mut Calls<S>,
    module_number: ModuleNo,
    artifact: &Artifact,
    contents: &Contents,
) -> Result<(), Fault>
    ensures stays { WritesIn S.Store calls.old calls.new result }
    ensures writes { MakesIn S.Store calls.old calls.new result (AddsArtifact module_number artifact.now contents.now) }
{
    write_artifact(
        calls,
        artifact.number,
        module_number,
        &artifact.filename,
        artifact.size,
        &artifact.digest,
    )?;
    write_pieces(calls, artifact.number, 0, contents.as_slice())
}

/// Adds an artifact. Its reply takes no memory.
pub(crate) fn add_artifact<S: Alter>(calls: &mut Calls<S>, upload: &Upload) -> Result<Step, Fault>
    ensures stays { StaysIn S.Store calls.old calls.new result }
    ensures steps { StepsIn S.Store calls.old calls.new (AddArtifact upload.now) result }
    ensures fails { FailsStepIn S.Store calls.old calls.new result }
{
    let view = read_view(calls, upload)?;
    let added = match campaign_core::add_artifact(&view) {
        Ok(added) => added,
        Err(refusal) => return Ok(Step::Refused(refusal)),
    };
    let artifact = Artifact {
        number: added.number,
        filename: upload.filename,
        size: added.size,
        digest: added.digest,
    };
    write_whole(calls, upload.module_number, &artifact, &upload.contents)?;
    Ok(Step::Accepted(Reply::ArtifactAdded(artifact)))
}
