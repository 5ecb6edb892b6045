//! Desks that hand out contents piece by piece: the words of a download, and the trait that the loop of the server asks of a desk.
#![tactic(auto)]

mod answered;
mod download;
mod handler;
mod requests;

pub use crate::answered::Answered;
pub use crate::download::Download;
pub use crate::handler::ContentsHandler;
pub use crate::requests::Handler;
