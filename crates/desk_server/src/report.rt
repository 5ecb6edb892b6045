//! The order `report`.

ghost use Rattle.rollout_machine.specs.Requests.{Asks, Ask, ShowReport};
ghost use Rattle.rollout_machine.specs.Views.{reply_of};
ghost use Rattle.http_wire.specs.Watched.{inner_of, has_failed};
ghost use Rattle.desk_server.specs.ReportOrders.{ReportsRollout};
ghost use Rattle.desk_server.specs.Telling.{RepliesTo};

use crate::telling::tell_reply;
use http_wire::Watched;
use rollout_model::{Query, Reply, Request, RolloutNo};
use std::alloc::Global;
use std::io::Write;
use stream_server::Handler;

/// What the desk answers to the query of a report.
fn ask<D: Handler>(desk: &mut D, number: RolloutNo) -> Reply
    ensures { RepliesTo (Asks (Ask (ShowReport number))) (D.state desk.old) (D.state desk.new) (reply_of result) }
{
    desk.handle(&Request::Ask(Query::Report(number)))
}

/// Asks the desk for a rollout's report, and tells what it answers.
pub(crate) fn report<W: Write, E: Write, D: Handler>(
    alloc: Global,
    desk: &mut D,
    number: RolloutNo,
    output: &mut Watched<W>,
    errors: &mut Watched<E>,
) -> u8
    ensures { ReportsRollout number (D.state desk.old) (D.state desk.new) (W.contents (inner_of output.old)) (W.contents (inner_of output.new))
        (E.contents (inner_of errors.old)) (E.contents (inner_of errors.new)) (has_failed errors.new) (has_failed output.old) (has_failed output.new) result }
{
    let reply = ask(desk, number);
    tell_reply(alloc, &reply, output, errors)
}
