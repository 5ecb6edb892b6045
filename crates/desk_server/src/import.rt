//! The order `import`.

ghost use Rattle.std.specs.Prelude.{◌≡◌, ◌≢◌, ◌⊎◌, IfErr, IfOk};
ghost use Rattle.std.specs.Option.{option_map};
ghost use Rattle.rollout_model.specs.declared.refusal.Refusal.TheVariants.{NoMemory, StoreFailed};
ghost use Rattle.rollout_machine.specs.Requests.{Asks, Rejected};
ghost use Rattle.rollout_machine.specs.Views.{request_of, reply_of};
ghost use Rattle.http_wire.specs.Watched.{inner_of, has_failed};
ghost use Rattle.desk_server.specs.Imports.{CarriesOutImport, Imports, asked_by_file};
ghost use Rattle.desk_server.specs.Telling.{RepliesTo};

use crate::program::{FAILED, tell};
use crate::telling::tell_reply;
use http_wire::Watched;
use mgmt_api::read_file;
use rollout_model::limits::FILE_LENGTH_LIMIT;
use rollout_model::{Refusal, Reply, Request};
use std::alloc::Global;
use std::io::Write;
use stream_server::Handler;

/// What a file asks of the desk, or its refusal.
fn request_in(alloc: Global, file: &[u8]) -> Result<Request, Refusal>
    ensures ok { IfOk result (λ request. asked_by_file file.now ≡ Asks (request_of request)) }
    ensures err { IfErr result (λ refusal. (refusal ≡ NoMemory) ⊎ (asked_by_file file.now ≡ Rejected refusal)) }
    ensures no_store { IfErr result (λ refusal. refusal ≢ StoreFailed) }
{
    if FILE_LENGTH_LIMIT < file.len() {
        return Err(Refusal::TooLarge);
    }
    read_file(alloc, file)
}

/// What the desk answers to a file. A stopped one refuses it, whatever it says.
#[tactic(auto, using(stream_server::proofs::AskLemmas::refuses, stream_server::proofs::PartLemmas::stays))]
fn ask<D: Handler>(alloc: Global, desk: &mut D, file: &[u8]) -> Reply
    ensures { RepliesTo (asked_by_file file.now) (D.state desk.old) (D.state desk.new) (reply_of result) }
{
    if desk.is_stopped() {
        return Reply::Refused(Refusal::Stopped);
    }
    match request_in(alloc, file) {
        Ok(request) => desk.handle(&request),
        Err(refusal) => Reply::Refused(refusal),
    }
}

/// Puts the targets of a file, and tells what came of it.
fn import<W: Write, E: Write, D: Handler>(
    alloc: Global,
    desk: &mut D,
    file: &[u8],
    output: &mut Watched<W>,
    errors: &mut Watched<E>,
) -> u8
    ensures { Imports file.now (D.state desk.old) (D.state desk.new) (W.contents (inner_of output.old)) (W.contents (inner_of output.new))
        (E.contents (inner_of errors.old)) (E.contents (inner_of errors.new)) (has_failed errors.new) (has_failed output.old) (has_failed output.new) result }
{
    let reply = ask(alloc, desk, file);
    tell_reply(alloc, &reply, output, errors)
}

/// Puts the targets of a file, or tells that it can't be read.
pub(crate) fn import_given<W: Write, E: Write, D: Handler>(
    alloc: Global,
    desk: &mut D,
    file: Option<&[u8]>,
    output: &mut Watched<W>,
    errors: &mut Watched<E>,
) -> u8
    ensures { CarriesOutImport (option_map (λ s. s.now) file.entry) (D.state desk.old) (D.state desk.new) (W.contents (inner_of output.old))
        (W.contents (inner_of output.new))
        (E.contents (inner_of errors.old)) (E.contents (inner_of errors.new)) (has_failed errors.new) (has_failed output.old) (has_failed output.new) result }
{
    match file {
        Some(file) => import(alloc, desk, file, output, errors),
        None => {
            tell(errors, b"fault 6 file\n");
            FAILED
        }
    }
}
