//! What a desk says to a query.

use crate::download::Download;
use rollout_model::Reply;

/// What a query is answered with.
#[derive(Drop)]
pub enum Answered {
    /// Contents, which are then handed out piece by piece.
    Contents(Download),
    Reply(Reply),
}
