//! What is said of an artifact's contents: their size and SHA-256 digest, the digest as text, and the pieces in which they
//! are kept.
#![tactic(auto)]

mod description;
mod hexadecimal;
mod laws;
mod pieces;

pub use description::{Description, describe};
pub use hexadecimal::{digest_text, read_digest};
pub use laws::{digests_are_read_back, pieces_fit, pieces_make_the_whole};
pub use pieces::{Piece, Pieces, cut, join};
