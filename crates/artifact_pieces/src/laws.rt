//! Laws of the definitions in `specs`.

ghost use Rattle.artifact_pieces.specs.Digests.{DigestsAreReadBack};
ghost use Rattle.artifact_pieces.specs.Pieces.{PiecesFit, PiecesMakeTheWhole};

/// The pieces that `cut` names, put together by `join`, are the contents.
pub fn pieces_make_the_whole()
    ensures { PiecesMakeTheWhole }
{}

/// Each piece that `cut` names has a byte, and ends within the contents.
pub fn pieces_fit()
    ensures { PiecesFit }
{}

/// What `digest_text` writes of a digest, `read_digest` reads as that digest.
pub fn digests_are_read_back()
    ensures { DigestsAreReadBack }
{}
