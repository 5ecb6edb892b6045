//! The contents of an artifact, piece by piece.

ghost use Rattle.std.specs.Prelude.{◌≡◌, ◌≤◌};
ghost use Rattle.artifact_pieces.specs.Pieces.{piece_count};
ghost use Rattle.desk_records.specs.Schema.{Pieces};
ghost use Rattle.desk_store.specs.Blaming.{BlamesGiven, ReadsOf};
ghost use Rattle.desk_store.specs.Changing.{FindsTables, StaysIn};
ghost use Rattle.desk_verify.specs.private.ArtifactChecks.{HashesPiece, HashesPieces};

use desk_store::{Calls, Fault, find_pieces};
use rollout_model::limits::PIECE_LENGTH;
use rollout_model::{ArtifactNo, Digest};
use sha2::{Digest as _, Sha256};
use sqlite::Alter;

/// The digest of the contents of this size that the pieces of an artifact make. One piece at a time is held in memory.
pub(crate) fn hash_pieces<S: Alter>(
    calls: &mut Calls<S>,
    number: ArtifactNo,
    size: u32,
) -> Result<Option<Digest>, Fault>
    ensures stays { StaysIn S.Store calls.old calls.new result }
    ensures judges { FindsTables S.Store calls.old calls.new result (λ t digest. HashesPieces t number size digest) }
    ensures blames { BlamesGiven S.Store (ReadsOf Pieces) calls.old calls.new result }
{
    let mut hasher = Sha256::new();
    for before in 0..count_pieces(size) {
        let rest = size as usize - before as usize * PIECE_LENGTH;
        if !hash_piece(
            calls,
            number,
            before + 1,
            rest.min(PIECE_LENGTH),
            &mut hasher,
        )? {
            return Ok(None);
        }
    }
    Ok(Some(Digest::new(hasher.finalize())))
}

/// Hashes the piece at a place of an artifact; `false` where none of this length lies there alone.
fn hash_piece<S: Alter>(
    calls: &mut Calls<S>,
    number: ArtifactNo,
    place: u32,
    size: usize,
    hasher: &mut Sha256,
) -> Result<bool, Fault>
    ensures stays { StaysIn S.Store calls.old calls.new result }
    ensures judges { FindsTables S.Store calls.old calls.new result (λ t lies. HashesPiece t number place size hasher.old hasher.new lies) }
    ensures blames { BlamesGiven S.Store (ReadsOf Pieces) calls.old calls.new result }
{
    let pieces = find_pieces(calls, number, place)?;
    if pieces.len() != 1 {
        return Ok(false);
    }
    let piece = pieces[0].as_slice();
    if piece.len() != size {
        return Ok(false);
    }
    hasher.update(piece);
    Ok(true)
}

/// How many pieces contents of a size have.
pub(crate) fn count_pieces(size: u32) -> u32
    ensures count { result ≡ piece_count size }
    ensures few { result ≤ 65536 }
{
    size.div_ceil(PIECE_LENGTH as u32)
}
