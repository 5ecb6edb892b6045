//! Artifacts and the pieces of their contents, in a change that is under way.

ghost use Rattle.std.specs.Prelude.{◌≡◌, ◌+◌, IfSome, length, vec_items, map};
ghost use Rattle.std.specs.List.{list_any};
ghost use Rattle.std.specs.Option.{option_map};
ghost use Rattle.rollout_machine.specs.ByteStrings.{item_numbered};
ghost use Rattle.rollout_machine.specs.Objects.{artifacts_shown};
ghost use Rattle.desk_records.specs.ArtifactRow.{stored};
ghost use Rattle.desk_records.specs.Artifacts.{is_same_artifact, piece_numbered, with_artifact, AddsPiece};
ghost use Rattle.desk_store.specs.Counting.{AddsIn, RunsIn};
ghost use Rattle.desk_store.specs.Changing.{FindsIn, FindsTables, MakesIn, StaysIn};
ghost use Rattle.desk_store.specs.RawLists.{AreListed, HasNumbered, ListsRows, SaysArtifact, any_row};
ghost use Rattle.desk_store.specs.Failing.{FailsIn, WritesIn};
ghost use Rattle.desk_records.specs.FoundPieces.{ArePieces};
ghost use Rattle.desk_records.specs.Schema.{Artifacts, Pieces};
ghost use Rattle.desk_store.specs.Blaming.{Blames, BlamesGiven, ReadsOf};

use crate::checked_row::read_checked;
use crate::reading::{last_number, read_all, read_optional};
use crate::statements::{ask, first, run};
use desk_records::{
    CheckedArtifact, FIND_ARTIFACT, GET_ARTIFACT, GET_PIECE, LAST_ARTIFACT, LIST_ALL_ARTIFACTS,
    LIST_ARTIFACTS, PUT_ARTIFACT, PUT_PIECE, StoredArtifact,
};
use rollout_model::{Artifact, ArtifactNo, Digest, Filename, ModuleNo};
use sql_calls::{Calls, Fault};
use sqlite::{Alter, params};

/// Whether the module has an artifact of this name.
pub fn read_same_artifact<S: Alter>(
    calls: &mut Calls<S>,
    module_number: ModuleNo,
    filename: &Filename,
) -> Result<bool, Fault>
    ensures stays { StaysIn S.Store calls.old calls.new result }
    ensures reads { FindsIn S.Store calls.old calls.new result
        (λ r found. found ≡ list_any (is_same_artifact module_number filename.now) r.artifacts) }
    ensures fails { FailsIn S.Store calls.old calls.new result }
    ensures work { AddsIn 1 1 calls.old calls.new }
{
    let row = first(
        calls,
        FIND_ARTIFACT,
        params![module_number.get(), filename.as_str()],
    )?;
    Ok(row.is_some())
}

/// The number of the last artifact, which is how many there are.
pub fn read_last_artifact<S: Alter>(calls: &mut Calls<S>) -> Result<u32, Fault>
    ensures stays { StaysIn S.Store calls.old calls.new result }
    ensures reads { FindsIn S.Store calls.old calls.new result (λ r last. last ≡ length r.artifacts) }
    ensures fails { FailsIn S.Store calls.old calls.new result }
    ensures work { AddsIn 1 1 calls.old calls.new }
{
    let row = first(calls, LAST_ARTIFACT, &[])?;
    last_number(row)
}

/// What is kept of the artifact of a number, without its contents. A row that breaks a column's rule is `Broken`.
pub fn read_artifact<S: Alter>(
    calls: &mut Calls<S>,
    number: ArtifactNo,
) -> Result<Option<StoredArtifact>, Fault>
    ensures stays { StaysIn S.Store calls.old calls.new result }
    ensures reads { FindsIn S.Store calls.old calls.new result (λ r found. found ≡ option_map stored (item_numbered r.artifacts number)) }
    ensures tells { FindsTables S.Store calls.old calls.new result (λ t found. IfSome found (HasNumbered t number)) }
    ensures fails { FailsIn S.Store calls.old calls.new result }
    ensures work { AddsIn 1 1 calls.old calls.new }
{
    let alloc = calls.alloc();
    let row = first(calls, GET_ARTIFACT, params![number.get()])?;
    read_optional(alloc, row)
}

/// The artifacts of a module, in the order of their numbers. A row that breaks a column's rule is `Broken`.
pub fn read_module_artifacts<S: Alter>(
    calls: &mut Calls<S>,
    module_number: ModuleNo,
) -> Result<Vec<Artifact>, Fault>
    ensures stays { StaysIn S.Store calls.old calls.new result }
    ensures reads { FindsIn S.Store calls.old calls.new result (λ r artifacts. artifacts.items ≡ artifacts_shown module_number 1 r.artifacts) }
    ensures tells { FindsTables S.Store calls.old calls.new result (λ t artifacts. AreListed t module_number artifacts.items) }
    ensures fails { FailsIn S.Store calls.old calls.new result }
    ensures work { RunsIn 1 calls.old calls.new }
{
    let alloc = calls.alloc();
    let rows = ask(calls, LIST_ARTIFACTS, params![module_number.get()])?;
    read_all(alloc, &rows)
}

/// The piece at a place of an artifact's contents; places are counted from 1. A row that breaks a column's rule is
/// `Broken`.
pub fn read_piece<S: Alter>(
    calls: &mut Calls<S>,
    number: ArtifactNo,
    sequence: u32,
) -> Result<Option<Vec<u8>>, Fault>
    ensures stays { StaysIn S.Store calls.old calls.new result }
    ensures reads { FindsIn S.Store calls.old calls.new result
        (λ r found. option_map vec_items found ≡ piece_numbered r.artifacts number sequence) }
    ensures fails { FailsIn S.Store calls.old calls.new result }
    ensures work { AddsIn 1 1 calls.old calls.new }
{
    let alloc = calls.alloc();
    let row = first(calls, GET_PIECE, params![number.get(), sequence])?;
    read_optional(alloc, row)
}

/// Adds the artifact of the next number, with no contents yet. The size is in bytes.
pub fn write_artifact<S: Alter>(
    calls: &mut Calls<S>,
    number: ArtifactNo,
    module_number: ModuleNo,
    filename: &Filename,
    size: u32,
    digest: &Digest,
) -> Result<(), Fault>
    ensures stays { WritesIn S.Store calls.old calls.new result }
    ensures writes { MakesIn S.Store calls.old calls.new result
        (λ r next. (number ≡ length r.artifacts + 1) × (next ≡ with_artifact r module_number filename.now size digest.now)) }
    ensures work { AddsIn 1 0 calls.old calls.new }
{
    run(
        calls,
        PUT_ARTIFACT,
        params![
            number.get(),
            module_number.get(),
            filename.as_str(),
            size,
            digest.as_bytes().as_slice()
        ],
    )
}

/// Adds a piece of at most 65,536 bytes to the contents of the last artifact, at its next place; places are counted from 1.
pub fn write_piece<S: Alter>(
    calls: &mut Calls<S>,
    number: ArtifactNo,
    sequence: u32,
    bytes: &[u8],
) -> Result<(), Fault>
    ensures stays { WritesIn S.Store calls.old calls.new result }
    ensures writes { MakesIn S.Store calls.old calls.new result
        (AddsPiece number sequence bytes.now) }
    ensures work { AddsIn 1 0 calls.old calls.new }
{
    run(calls, PUT_PIECE, params![number.get(), sequence, bytes])
}

/// The artifacts of all modules, whatever rows there are; `None` where a row breaks a column's rule.
pub fn list_all_artifacts<S: Alter>(
    calls: &mut Calls<S>,
) -> Result<Option<Vec<CheckedArtifact>>, Fault>
    ensures stays { StaysIn S.Store calls.old calls.new result }
    ensures reads { FindsTables S.Store calls.old calls.new result (λ t found. ListsRows (t Artifacts) any_row SaysArtifact (option_map vec_items found)) }
    ensures blames { Blames S.Store calls.old calls.new result }
    ensures work { RunsIn 1 calls.old calls.new }
{
    let alloc = calls.alloc();
    let rows = ask(calls, LIST_ALL_ARTIFACTS, &[])?;
    read_checked(alloc, &rows)
}

/// What lies at a place of an artifact, whatever rows there are; places are counted from 1.
pub fn find_pieces<S: Alter>(
    calls: &mut Calls<S>,
    number: ArtifactNo,
    place: u32,
) -> Result<Vec<Vec<u8>>, Fault>
    ensures stays { StaysIn S.Store calls.old calls.new result }
    ensures reads { FindsTables S.Store calls.old calls.new result (λ t pieces. ArePieces (t Pieces) number place (map vec_items pieces.items)) }
    ensures blames { BlamesGiven S.Store (ReadsOf Pieces) calls.old calls.new result }
    ensures work { RunsIn 1 calls.old calls.new }
{
    let alloc = calls.alloc();
    let rows = ask(calls, GET_PIECE, params![number.get(), place])?;
    read_all(alloc, &rows)
}
