//! Downloads: the contents of an artifact, piece by piece.

ghost use Rattle.std.specs.Prelude.{◌≡◌, IfErr};
ghost use Rattle.rollout_machine.specs.Requests.{Ask, Asks, Download as DownloadOf, ShowContents};
ghost use Rattle.rollout_machine.specs.Views.{query_of};
ghost use Rattle.rollout_desk.specs.Conduct.{BehavesBeginning, BehavesHanding};
ghost use Rattle.rollout_desk.specs.DeskStates.{desk_state};
ghost use Rattle.request_handler.specs.Downloads.{KeepsCount};
ghost use Rattle.rollout_desk.specs.Downloads.{Begins, DownloadsGoOn, HandsOut, IsInterruption, KeepsToQuery, artifact_in};

use crate::desk::Desk;
use crate::look::{look_for_download, of_length, read_piece};
use request_handler::Download;
use rollout_machine::is_failed_store;
use rollout_model::{Artifact, ArtifactNo, Credential, Filename, ModuleNo, Query, Refusal, Reply};
use sqlite::Alter;

/// What an artifact's contents are, they stay, so a download goes on whatever commands come between its pieces.
pub fn downloads_go_on()
    ensures { DownloadsGoOn }
{}

/// The artifact that a reply shows, or else the reply.
fn artifact_in(reply: Reply) -> Result<Artifact, Reply>
    ensures { result ≡ artifact_in reply }
{
    match reply {
        Reply::Artifact(artifact) => Ok(artifact),
        other => Err(other),
    }
}

impl<S: Alter> Desk<S> {
    /// Begins a download of the contents that a query asks for, of the management or of a device. Any other query, and one that is refused,
    /// is answered as `ask`
    /// answers it.
    pub fn download(&mut self, query: &Query) -> Result<Download, Reply>
        ensures conduct { BehavesBeginning S.Store self.old self.new result }
        ensures begins { Begins (desk_state S.Store self.old) (desk_state S.Store self.new) (Asks (Ask (query_of query.now))) result }
        ensures keeps { KeepsToQuery S.Store self.old self.new (query_of query.now) result }
    {
        match query {
            Query::Contents(module_number, number) => self.find_artifact(*module_number, *number),
            Query::Download(device, module_number, filename) => {
                self.find_offered(device, *module_number, filename)
            }
            _ => Err(self.ask(query)),
        }
    }

    /// Finds the artifact of a module whose contents are asked for. It has these contents if it is shown, and where it isn't
    /// the contents are refused in the same way.
    fn find_artifact(
        &mut self,
        module_number: ModuleNo,
        number: ArtifactNo,
    ) -> Result<Download, Reply>
        ensures conduct { BehavesBeginning S.Store self.old self.new result }
        ensures begins { Begins (desk_state S.Store self.old) (desk_state S.Store self.new) (Asks (Ask (ShowContents module_number number))) result }
        ensures keeps { KeepsToQuery S.Store self.old self.new (ShowContents module_number number) result }
    {
        let reply = self.ask(&Query::Artifact(module_number, number));
        match artifact_in(reply) {
            Ok(artifact) => Ok(Download {
                number,
                size: artifact.size,
                pieces: 0,
            }),
            Err(reply) => Err(reply),
        }
    }

    /// Finds the artifact whose contents a device asks for, of what it is offered as a deployment.
    fn find_offered(
        &mut self,
        device: &Credential,
        module_number: ModuleNo,
        filename: &Filename,
    ) -> Result<Download, Reply>
        ensures conduct { BehavesBeginning S.Store self.old self.new result }
        ensures begins { Begins (desk_state S.Store self.old) (desk_state S.Store self.new)
            (Asks (Ask (DownloadOf device.now module_number filename.now))) result }
        ensures keeps { KeepsToQuery S.Store self.old self.new (DownloadOf device.now module_number filename.now) result }
    {
        if self.stopped {
            return Err(Reply::Refused(Refusal::Stopped));
        }
        match look_for_download(self.alloc, &mut self.store, device, module_number, filename) {
            Ok(artifact) => Ok(Download {
                number: artifact.number,
                size: artifact.size,
                pieces: 0,
            }),
            Err(why) => {
                self.stopped = is_failed_store(why);
                Err(Reply::Refused(why))
            }
        }
    }

    /// The next piece of a download: 65,536 bytes, the last one perhaps fewer. `None` once all were handed out. After `NoMemory`
    /// the same piece is next. After `StoreFailed` the desk is stopped, and this is `Stopped`; pieces that aren't as many bytes as
    /// the artifact's size are a failed store too. A download of another desk gets pieces of this one's artifact of its number, or none.
    pub fn next_piece(&mut self, download: &mut Download) -> Result<Option<Vec<u8>>, Refusal>
        ensures conduct { BehavesHanding S.Store self.old self.new download.old result }
        ensures hands { HandsOut S.Store self.old self.new download.old download.new result }
        ensures counts { KeepsCount download.old download.new result }
        ensures interrupted { IfErr result (IsInterruption (desk_state S.Store self.old).is_stopped) }
        ensures work { self.new.work ≡ self.old.work }
    {
        if self.stopped {
            return Err(Refusal::Stopped);
        }
        let wanted = download.next_length();
        if wanted == 0 {
            return Ok(None);
        }
        let found = read_piece(&mut self.store, download.number, download.pieces + 1);
        match of_length(found, wanted) {
            Ok(piece) => {
                download.pieces += 1;
                Ok(Some(piece))
            }
            Err(refusal) => {
                self.stopped = is_failed_store(refusal);
                Err(refusal)
            }
        }
    }
}
