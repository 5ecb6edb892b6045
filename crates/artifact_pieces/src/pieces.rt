//! Contents in pieces.

ghost use Rattle.std.specs.Prelude.{◌≡◌, IfOk, IfErr, vec_items};
ghost use Rattle.std.specs.List.{flat_map};
ghost use Rattle.std.specs.Iterator.{YieldsFirst, item_count};
ghost use Rattle.artifact_pieces.specs.Pieces.{pieces_of};
ghost use Rattle.rollout_model.specs.declared.refusal.Refusal.TheVariants.{NoMemory};

use rollout_model::Refusal;
use rollout_model::limits::PIECE_LENGTH;
use std::alloc::Global;
use std::marker::Model;

/// A piece of some contents.
#[derive(Clone, Copy)]
pub struct Piece {
    /// The bytes before it.
    pub from: usize,
    /// Its own bytes, from 1 to 65,536.
    pub len: usize,
}

/// The pieces of some contents that are still to come.
#[derive(Drop)]
pub struct Pieces {
    total: usize,
    count: usize,
    place: usize,
}

impl Model for Pieces {
    ghost use Rattle.std.specs.Prelude.{List, ◌≡◌};
    ghost use Rattle.artifact_pieces.specs.declared.pieces.Piece.{Piece};
    ghost use Rattle.artifact_pieces.specs.Pieces.{pieces_from, piece_count};

    ghost Value = { List Piece };

    ghost view = { λ s. pieces_from s.total s.place };

    ghost invariant = { λ s. s.count ≡ piece_count s.total };
}

/// The pieces of contents of this length, in order. Takes no memory.
pub fn cut(total: usize) -> Pieces
    ensures { result ≡ pieces_of total }
{
    Pieces {
        total,
        count: total.div_ceil(PIECE_LENGTH),
        place: 0,
    }
}

impl Iterator for Pieces {
    type Item = Piece;

    ghost next_gives = { YieldsFirst (λ s. s) };

    ghost remaining = { item_count (λ s. s) };

    fn next(&mut self) -> Option<Piece> {
        if self.place >= self.count {
            return None;
        }
        let from = self.place * PIECE_LENGTH;
        let len = PIECE_LENGTH.min(self.total - from);
        self.place += 1;
        Some(Piece { from, len })
    }
}

/// The pieces put together again: the bytes of each, one after the other.
pub fn join(alloc: Global, pieces: &[Vec<u8>]) -> Result<Vec<u8>, Refusal>
    ensures ok { IfOk result (λ whole. whole.items ≡ flat_map vec_items pieces.now) }
    ensures err { IfErr result (λ e. e ≡ NoMemory) }
{
    let mut whole = Vec::new(alloc);
    for piece in pieces {
        whole.extend_from_slice(piece)?;
    }
    Ok(whole)
}
