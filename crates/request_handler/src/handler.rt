//! A desk that hands out contents piece by piece, seen from the loop that writes them out.

use crate::answered::Answered;
use crate::download::Download;
use crate::requests::Handler;
use rollout_model::{Query, Refusal};

/// A desk that hands out the contents which a query asks for in pieces, seen as a `Handler` is.
pub trait ContentsHandler: Handler {
    ghost use Rattle.std.specs.Prelude.{◌≡◌, ◌≢◌, true, false, Err};
    ghost use Rattle.rollout_model.specs.declared.refusal.Refusal.TheVariants as refusal;
    ghost use Rattle.rollout_machine.specs.Replies.{Refused};
    ghost use Rattle.rollout_machine.specs.Requests.{Ask, Asks};
    ghost use Rattle.rollout_machine.specs.Views.{query_of, reply_of};
    ghost use Rattle.rollout_machine.specs.Standing.{StaysStopped};
    ghost use Rattle.request_handler.specs.Downloads.{Begins, HandsPieces, IfContents, IfReply, KeepsCount};
    ghost use Rattle.request_handler.specs.Failures.{HasCause, HasCauseHanding};

    /// Begins a download of the contents that a query asks for. Any other query, and one that is refused, is answered as `handle` answers it.
    fn begin_download(&mut self, query: &Query) -> Answered
        ensures clean { (Self.state self.new).is_clean → (Self.state self.old).is_clean }
        ensures begins { Begins (Self.state self.old) (Self.state self.new) (Asks (Ask (query_of query.now))) result }
        ensures runs { IfContents result (λ _. (Self.state self.old).is_stopped ≡ false) }
        ensures stops { IfReply result (λ reply. reply_of reply ≡ Refused refusal.StoreFailed → (Self.state self.new).is_stopped ≡ true) }
        ensures fails { IfReply result (λ reply. reply_of reply ≡ Refused refusal.StoreFailed
            → HasCause (Self.state self.old) (Self.state self.new) (Self.failures self.old) (Self.failures self.new)) }
        ensures tells { IfContents result (λ _. Self.failures self.new ≡ Self.failures self.old) }
        ensures answers { IfReply result (λ reply. reply_of reply ≢ Refused refusal.StoreFailed → Self.failures self.new ≡ Self.failures self.old) }
        ensures stopped { (Self.state self.old).is_stopped ≡ true
            → IfReply result (λ reply. reply_of reply ≡ Refused refusal.Stopped) × StaysStopped (Self.state self.old) (Self.state self.new) };

    /// The next piece of a download: 65,536 bytes, the last one perhaps fewer. `None` once all were handed out. After `NoMemory`
    /// the same piece is next. After `StoreFailed` the desk is stopped, and this is `Stopped`; pieces that aren't as many bytes as
    /// the artifact's size are a failed store too.
    fn next_piece(&mut self, download: &mut Download) -> Result<Option<Vec<u8>>, Refusal>
        ensures clean { (Self.state self.new).is_clean → (Self.state self.old).is_clean }
        ensures hands { HandsPieces (Self.state self.old) (Self.state self.new) download.old download.new result }
        ensures counts { KeepsCount download.old download.new result }
        ensures stops { result ≡ Err refusal.StoreFailed → (Self.state self.new).is_stopped ≡ true }
        ensures fails { result ≡ Err refusal.StoreFailed
            → HasCauseHanding download.old (Self.state self.old) (Self.state self.new) (Self.failures self.old) (Self.failures self.new) }
        ensures tells { result ≢ Err refusal.StoreFailed → Self.failures self.new ≡ Self.failures self.old };
}
