//! How far a download is.

ghost use Rattle.std.specs.Prelude.{◌≡◌, ◌+◌, ◌<◌, ◌≤◌, ◌^◌};
ghost use Rattle.request_handler.specs.Downloads.{next_length};

use rollout_model::ArtifactNo;
use rollout_model::limits::PIECE_LENGTH;

/// A download: how far the contents of an artifact were handed out, piece by piece. One that is dropped early changes nothing.
#[derive(Clone, Copy)]
pub struct Download {
    pub number: ArtifactNo,
    /// In bytes.
    pub size: u32,
    /// How many pieces were handed out.
    pub pieces: u32,
}

impl Download {
    /// How many bytes the contents have.
    pub fn size(&self) -> u32
        ensures { result ≡ self.now.size }
    {
        self.size
    }

    /// How many bytes the next piece has: 0 where all were handed out. Where there is one it can be counted.
    pub fn next_length(&self) -> u64
        ensures length { result ≡ next_length self.now }
        ensures counted { 1 ≤ result → self.now.pieces + 1 < 2 ^ 32 }
    {
        let sent = self.pieces as u64 * PIECE_LENGTH as u64;
        (self.size as u64)
            .saturating_sub(sent)
            .min(PIECE_LENGTH as u64)
    }
}
