//! A desk as what hands out contents piece by piece.

use crate::desk::Desk;
use request_handler::{Answered, ContentsHandler, Download};
use rollout_model::{Query, Refusal};
use sqlite::Alter;

impl<S: Alter> ContentsHandler for Desk<S> {
    fn begin_download(&mut self, query: &Query) -> Answered {
        match self.download(query) {
            Ok(download) => Answered::Contents(download),
            Err(reply) => Answered::Reply(reply),
        }
    }

    fn next_piece(&mut self, download: &mut Download) -> Result<Option<Vec<u8>>, Refusal> {
        Desk::next_piece(self, download)
    }
}
