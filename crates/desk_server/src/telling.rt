//! What is told of an order's outcome.

ghost use Rattle.std.specs.Prelude.{◌≡◌, ℕ, Bool, List, Option};
ghost use Rattle.http_wire.specs.Watched.{inner_of, has_failed};
ghost use Rattle.rollout_machine.specs.Views.{reply_of};
ghost use Rattle.desk_files.specs.Reports.{report_text};
ghost use Rattle.desk_server.specs.Telling.{Prints, Refuses, TellsOutcome, imported_line, outcome_of, refusal_line};

use crate::program::{DONE, FAILED, fault_line, tell};
use desk_files::rollout_report;
use http_wire::{FixedText, Watched};
use rollout_model::{Refusal, Reply, RolloutReport};
use std::alloc::Global;
use std::io::Write;
use stream_server::{ServeFault, send};

/// The line of a refusal, with the faulty line of a file. It takes no memory.
#[tactic(auto, using(http_wire::proofs::ReplyLemmas::good_row))]
fn refusal_line(refusal: Refusal) -> FixedText
    ensures { result ≡ refusal_line refusal }
{
    let mut line = FixedText::new();
    line.push(b"error ");
    line.push_number(u64::from(refusal.number()));
    line.push(b" ");
    line.push(refusal.name().as_bytes());
    if let Refusal::BadImportLine(faulty) = refusal {
        line.push(b" line ");
        line.push_number(faulty);
    }
    line.push(b"\n");
    line
}

/// Writes a text out, and tells of a fault.
pub(crate) fn print_or_tell<W: Write, E: Write>(
    text: &[u8],
    output: &mut Watched<W>,
    errors: &mut Watched<E>,
) -> u8
    ensures { Prints text.now (W.contents (inner_of output.old)) (W.contents (inner_of output.new))
        (E.contents (inner_of errors.old)) (E.contents (inner_of errors.new)) (has_failed errors.new) (has_failed output.old) (has_failed output.new) result }
{
    match send(output, text) {
        Ok(()) => DONE,
        Err(fault) => {
            tell(errors, fault_line(fault));
            FAILED
        }
    }
}

/// Tells that there was no memory for a text, of which nothing was written.
fn tell_no_memory<E: Write>(errors: &mut Watched<E>) -> u8
    ensures { (text : List ℕ) (out : Option (List ℕ)) (failed : Bool)
        → Prints text out out (E.contents (inner_of errors.old)) (E.contents (inner_of errors.new)) (has_failed errors.new) failed failed result }
{
    tell(errors, fault_line(ServeFault::Memory));
    FAILED
}

/// Tells why it was refused.
pub(crate) fn refuse<E: Write>(refusal: Refusal, errors: &mut Watched<E>) -> u8
    ensures { (out : Option (List ℕ)) (failed : Bool) → Refuses refusal out out (E.contents (inner_of errors.old)) (E.contents (inner_of errors.new))
        (has_failed errors.new) failed failed result }
{
    tell(errors, refusal_line(refusal).as_bytes());
    FAILED
}

/// How many targets were put. It takes no memory.
fn imported_line(accepted: u32) -> FixedText
    ensures { result ≡ imported_line accepted }
{
    let mut line = FixedText::new();
    line.push(b"imported ");
    line.push_number(u64::from(accepted));
    line.push(b"\n");
    line
}

/// Writes the text of a report out.
fn tell_report<W: Write, E: Write>(
    alloc: Global,
    report: &RolloutReport,
    output: &mut Watched<W>,
    errors: &mut Watched<E>,
) -> u8
    ensures { Prints (report_text report.now) (W.contents (inner_of output.old)) (W.contents (inner_of output.new))
        (E.contents (inner_of errors.old)) (E.contents (inner_of errors.new)) (has_failed errors.new) (has_failed output.old) (has_failed output.new) result }
{
    match rollout_report(alloc, report) {
        Ok(text) => print_or_tell(text.as_bytes(), output, errors),
        Err(_) => tell_no_memory(errors),
    }
}

/// Tells what was answered to an order.
pub(crate) fn tell_reply<W: Write, E: Write>(
    alloc: Global,
    reply: &Reply,
    output: &mut Watched<W>,
    errors: &mut Watched<E>,
) -> u8
    ensures { TellsOutcome (outcome_of (reply_of reply.now)) (W.contents (inner_of output.old)) (W.contents (inner_of output.new))
        (E.contents (inner_of errors.old)) (E.contents (inner_of errors.new)) (has_failed errors.new) (has_failed output.old) (has_failed output.new) result }
{
    match reply {
        Reply::TargetsPut(accepted) => print_or_tell(
            imported_line(*accepted).as_bytes(),
            output,
            errors,
        ),
        Reply::Report(report) => tell_report(alloc, report, output, errors),
        Reply::Refused(refusal) => refuse(*refusal, errors),
        _ => refuse(Refusal::StoreFailed, errors),
    }
}
