//! Artifacts and their contents.

ghost use Rattle.std.specs.Prelude.{◌≡◌, ◌≢◌, ◌≤◌, ◌<◌, ◌^◌, ◌++◌, ◌*◌, ◌⊎◌, length, take, drop, false, IfErr, IfOk, IfSome, IsSome};
ghost use Rattle.std.specs.Option.{option_map};
ghost use Rattle.desk_records.specs.ArtifactRow.{stored};
ghost use Rattle.rollout_machine.specs.Answers.{artifact_of_module, query_reply};
ghost use Rattle.rollout_machine.specs.ByteStrings.{item_numbered};
ghost use Rattle.rollout_machine.specs.Requests.{ShowArtifacts, ShowArtifact, ShowContents};
ghost use Rattle.rollout_machine.specs.Views.{reply_of};
ghost use Rattle.desk_reads.specs.AtLists.{FailsAtListsIn, FailsWith};
ghost use Rattle.desk_views.specs.private.Contents.{contents_found};
ghost use Rattle.rollout_model.specs.Limits.{limits};
ghost use Rattle.rollout_model.specs.Rules.{is_contents};
ghost use Rattle.sql_calls.specs.declared.fault.Fault.TheVariants.{Broken, Memory};
ghost use Rattle.desk_store.specs.private.Rows.{IfRowsBroken};
ghost use Rattle.desk_views.specs.Sizes.{AgreesIn, IsArtifactOf, KeepsSize};
ghost use Rattle.desk_store.specs.Changing.{FindsIn, StaysIn};

use crate::pages::{part_on, total_of};
use desk_store::{
    Calls, Fault, StoredArtifact, read_artifact, read_module, read_module_artifacts, read_piece,
};
use rollout_model::limits::{ARTIFACT_SIZE_LIMIT, PIECE_LENGTH};
use rollout_model::{Artifact, ArtifactNo, Contents, ModuleNo, Page, PageOf, Refusal, Reply};
use sqlite::Alter;
use std::alloc::Global;

/// How many pieces the contents of an artifact have at most.
const PIECE_LIMIT: u32 = (ARTIFACT_SIZE_LIMIT / PIECE_LENGTH) as u32;

/// Shows a page of the artifacts of a module, in the order of their numbers.
pub fn show_artifacts<S: Alter>(
    alloc: Global,
    calls: &mut Calls<S>,
    module_number: ModuleNo,
    page: Page,
) -> Result<Reply, Fault>
    ensures stays { StaysIn S.Store calls.old calls.new result }
    ensures reads { FindsIn S.Store calls.old calls.new result (λ now reply. reply_of reply ≡ query_reply now (ShowArtifacts module_number page)) }
    ensures fails { FailsAtListsIn S.Store calls.old calls.new result }
{
    if read_module(calls, module_number)?.is_none() {
        return Ok(Reply::Refused(Refusal::NotFound));
    }
    let artifacts = read_module_artifacts(calls, module_number)?;
    let shown = part_of(alloc, &artifacts, page)?;
    Ok(Reply::Artifacts(shown))
}

/// Shows an artifact of a module by its number.
pub fn show_artifact<S: Alter>(
    calls: &mut Calls<S>,
    module_number: ModuleNo,
    number: ArtifactNo,
) -> Result<Reply, Fault>
    ensures stays { StaysIn S.Store calls.old calls.new result }
    ensures reads { FindsIn S.Store calls.old calls.new result (λ now reply. reply_of reply ≡ query_reply now (ShowArtifact module_number number)) }
    ensures fails { FailsAtListsIn S.Store calls.old calls.new result }
{
    match read_of_module(calls, module_number, number)? {
        Some(found) => Ok(Reply::Artifact(shown_as(number, found))),
        None => Ok(Reply::Refused(Refusal::NotFound)),
    }
}

/// Shows the contents of an artifact of a module. Where the pieces aren't as many bytes as the artifact has, or more than
/// contents have, the store has failed.
pub fn show_contents<S: Alter>(
    alloc: Global,
    calls: &mut Calls<S>,
    module_number: ModuleNo,
    number: ArtifactNo,
) -> Result<Reply, Fault>
    ensures stays { StaysIn S.Store calls.old calls.new result }
    ensures reads { FindsIn S.Store calls.old calls.new result (λ now reply. reply_of reply ≡ query_reply now (ShowContents module_number number)) }
    ensures fails { FailsAtListsIn S.Store calls.old calls.new result }
    ensures sized { AgreesIn S.Store calls.old calls.new result (λ t reply. KeepsSize t (ShowContents module_number number) (reply_of reply)) }
{
    let found = match read_of_module(calls, module_number, number)? {
        Some(found) => found,
        None => return Ok(Reply::Refused(Refusal::NotFound)),
    };
    let contents = read_contents(alloc, calls, number, found.size)?;
    Ok(Reply::Contents(contents))
}

/// The contents of an artifact of this size. Where the pieces aren't as many bytes, or more than contents have, the store has failed.
pub(crate) fn read_contents<S: Alter>(
    alloc: Global,
    calls: &mut Calls<S>,
    number: ArtifactNo,
    size: u32,
) -> Result<Contents, Fault>
    ensures stays { StaysIn S.Store calls.old calls.new result }
    ensures reads { FindsIn S.Store calls.old calls.new result (λ now contents. contents ≡ contents_found (item_numbered now.artifacts number)) }
    ensures fails { FailsWith S.Store (λ now. size ≡ length (contents_found (item_numbered now.artifacts number))) calls.old calls.new result }
    ensures sized { IfOk result (λ contents. length contents ≡ size) }
{
    let bytes = read_pieces(alloc, calls, number)?;
    whole_contents(bytes, size)
}

/// The entries of a list that are on a page.
fn part_of(alloc: Global, all: &[Artifact], page: Page) -> Result<PageOf<Artifact>, Fault>
    ensures content { IfOk result (λ part. part.content.items ≡ take page.limit (drop page.offset all.now)) }
    ensures total { IfOk result (λ part. part.total ≡ length all.now) }
    ensures err { IfErr result (λ fault. IfRowsBroken fault (2 ^ 32 ≤ length all.now)) }
{
    let total = total_of(all)?;
    let content = Vec::from_slice(alloc, part_on(all, page))?;
    Ok(PageOf { content, total })
}

/// What is kept of the artifact of a number, where it is one of the module's.
fn read_of_module<S: Alter>(
    calls: &mut Calls<S>,
    module_number: ModuleNo,
    number: ArtifactNo,
) -> Result<Option<StoredArtifact>, Fault>
    ensures stays { StaysIn S.Store calls.old calls.new result }
    ensures reads { FindsIn S.Store calls.old calls.new result
        (λ now found. found ≡ option_map stored (artifact_of_module now module_number number)) }
    ensures fails { FailsAtListsIn S.Store calls.old calls.new result }
    ensures agrees { AgreesIn S.Store calls.old calls.new result (λ t found. IfSome found (IsArtifactOf t module_number number)) }
{
    let found = match read_artifact(calls, number)? {
        Some(found) => found,
        None => return Ok(None),
    };
    if found.module_number != module_number {
        return Ok(None);
    }
    Ok(Some(found))
}

fn shown_as(number: ArtifactNo, found: StoredArtifact) -> Artifact
    ensures { result ≡ record { number = number; filename = found.filename; size = found.size; digest = found.digest } }
{
    Artifact {
        number,
        filename: found.filename,
        size: found.size,
        digest: found.digest,
    }
}

/// The pieces of an artifact's contents, one after the other. It reads on until there is none, since the artifact's size
/// alone doesn't say which is the last one.
fn read_pieces<S: Alter>(
    alloc: Global,
    calls: &mut Calls<S>,
    number: ArtifactNo,
) -> Result<Vec<u8>, Fault>
    ensures stays { StaysIn S.Store calls.old calls.new result }
    ensures reads { FindsIn S.Store calls.old calls.new result (λ now bytes. bytes.items ≡ contents_found (item_numbered now.artifacts number)) }
    ensures fails { FailsAtListsIn S.Store calls.old calls.new result }
{
    let mut bytes = Vec::new(alloc);
    let mut pieces = 0;
    loop {
        let found = read_piece(calls, number, pieces + 1)?;
        match within_limit(pieces, found)? {
            Some(piece) => append(&mut bytes, &piece)?,
            None => return Ok(bytes),
        }
        pieces += 1;
    }
}

/// What was found behind so many pieces. Where these are as many as contents may have, the store has failed.
fn within_limit(before: u32, found: Option<Vec<u8>>) -> Result<Option<Vec<u8>>, Fault>
    ensures same { IfOk result (λ piece. piece ≡ found) }
    ensures few { IfOk result (λ piece. IfSome piece (λ _. before * limits.piece_length < limits.artifact_size)) }
    ensures err { IfErr result (λ fault. (fault ≡ Broken) × IsSome found × (limits.artifact_size ≤ before * limits.piece_length)) }
{
    match found {
        Some(piece) if before < PIECE_LIMIT => Ok(Some(piece)),
        Some(_) => Err(Fault::Broken),
        None => Ok(None),
    }
}

fn append(bytes: &mut Vec<u8>, piece: &[u8]) -> Result<(), Fault>
    ensures ok { IfOk result (λ _. bytes.new.items ≡ bytes.old.items ++ piece.now) }
    ensures err { IfErr result (λ fault. fault ≡ Memory) }
{
    Ok(bytes.extend_from_slice(piece)?)
}

/// The contents of these bytes, where there are as many as the artifact says.
fn whole_contents(bytes: Vec<u8>, size: u32) -> Result<Contents, Fault>
    ensures bytes { IfOk result (λ contents. contents ≡ bytes.items) }
    ensures sized { IfOk result (λ contents. length contents ≡ size) }
    ensures err { IfErr result (λ fault. (fault ≡ Broken) × ((length bytes.items ≢ size) ⊎ (is_contents bytes.items ≡ false))) }
{
    if bytes.len() != size as usize {
        return Err(Fault::Broken);
    }
    match Contents::from_bytes(bytes) {
        Some(contents) => Ok(contents),
        None => Err(Fault::Broken),
    }
}
