//! What is printed, each text with one line feed at its end. It takes no memory.

ghost use Rattle.std.specs.Prelude.{◌≡◌, [], Ok, Err};
ghost use Rattle.dh_types.specs.Output.{Puts};
ghost use Rattle.dh_types.specs.Reports.{report_of};
ghost use Rattle.dh_agency.specs.Requests.{Reported, said_in};
ghost use Rattle.dh_jobs.specs.Printed.{EndsByFault, EndsByProblem, EndsWithoutListener, status_if_written};
ghost use Rattle.dh_jobs.specs.Texts.{created_line, fault_line, migrated_line, no_listener_line, recovered_line};
ghost use Rattle.dh_jobs.specs.Texts.{refusal_line, said_lines};

use crate::status::{Failure, Status};
use dh_agency::{Problem, Response};
use dh_reports::write;
use dh_types::text_writer::put;
use dh_types::{
    Answer, EntryMonth, Fault, Output, Refusal, put_fault, put_month, put_refusal, put_reply,
};
use std::io::Write;

/// Writes the text of the refusal and a line feed; at an `Output` a beginning of them.
pub(crate) fn print_refusal<W: Write>(writer: &mut W, refusal: Refusal) -> Result<(), Output>
    ensures { Puts (W.contents writer.old) (W.contents writer.new) result (refusal_line refusal) }
{
    put_refusal(writer, refusal)?;
    put(writer, b"\n")
}

/// Writes the text of the fault and a line feed; at an `Output` a beginning of them.
pub(crate) fn print_fault<W: Write>(writer: &mut W, fault: Fault) -> Result<(), Output>
    ensures { Puts (W.contents writer.old) (W.contents writer.new) result (fault_line fault) }
{
    put_fault(writer, fault)?;
    put(writer, b"\n")
}

// Writes the report, or why there is none; at an `Output` a beginning of that.
fn print_answer<W: Write>(writer: &mut W, answer: &Answer) -> Result<(), Output>
    ensures { Puts (W.contents writer.old) (W.contents writer.new) result (said_lines (Reported (report_of answer.now))) }
{
    match answer {
        Answer::Refused(refusal) => print_refusal(writer, *refusal),
        _ => write(answer, writer),
    }
}

/// Writes the reply's text and a line feed, or the report, or why there is none; at an `Output` a beginning of that.
pub(crate) fn print_response<W: Write>(writer: &mut W, response: &Response) -> Result<(), Output>
    ensures { Puts (W.contents writer.old) (W.contents writer.new) result (said_lines (said_in response.now)) }
{
    match response {
        Response::Reply(reply) => {
            put_reply(writer, *reply)?;
            put(writer, b"\n")
        }
        Response::Report(answer) => print_answer(writer, answer),
    }
}

/// Writes that books were made which begin with this month; at an `Output` a beginning of that.
pub(crate) fn print_created<W: Write>(writer: &mut W, first: EntryMonth) -> Result<(), Output>
    ensures { Puts (W.contents writer.old) (W.contents writer.new) result (created_line first) }
{
    put_month(writer, b"created ", first.month())?;
    put(writer, b"\n")
}

/// Writes that a file is recovered; at an `Output` a beginning of that.
pub(crate) fn print_recovered<W: Write>(writer: &mut W) -> Result<(), Output>
    ensures { Puts (W.contents writer.old) (W.contents writer.new) result recovered_line }
{
    put(writer, b"recovered\n")
}

/// Writes that a file is migrated; at an `Output` a beginning of that.
pub(crate) fn print_migrated<W: Write>(writer: &mut W) -> Result<(), Output>
    ensures { Puts (W.contents writer.old) (W.contents writer.new) result migrated_line }
{
    put(writer, b"migrated\n")
}

fn print_no_listener<W: Write>(writer: &mut W) -> Result<(), Output>
    ensures { Puts (W.contents writer.old) (W.contents writer.new) result no_listener_line }
{
    put(writer, b"no listener\n")
}

/// The status, where the text was written whole; else the output failed.
pub(crate) fn status_if_written(outcome: Result<(), Output>, status: Status) -> Status
    ensures { result ≡ status_if_written outcome status }
{
    match outcome {
        Ok(()) => status,
        Err(output) => Status::Failed(Failure::Output(output)),
    }
}

/// Tells the fault, as far as the writer takes it; the status says what came of that.
pub(crate) fn end_by_fault<W: Write>(writer: &mut W, fault: Fault) -> Status
    ensures { EndsByFault fault (W.contents writer.old) (W.contents writer.new) [] result }
{
    let outcome = print_fault(writer, fault);
    Status::Failed(Failure::Fault(fault, outcome))
}

/// Tells that there is no listener, as far as the writer takes it; the status says what came of that.
pub(crate) fn end_without_listener<W: Write>(writer: &mut W) -> Status
    ensures { EndsWithoutListener (W.contents writer.old) (W.contents writer.new) result }
{
    let outcome = print_no_listener(writer);
    Status::Failed(Failure::NoListener(outcome))
}

/// Tells why tables are not taken.
pub(crate) fn end_by_problem<W: Write>(writer: &mut W, problem: Problem) -> Status
    ensures { EndsByProblem problem (W.contents writer.old) (W.contents writer.new) result }
{
    match problem {
        Problem::Refused(refusal) => status_if_written(
            print_refusal(writer, refusal),
            Status::FileRefused,
        ),
        Problem::Fault(fault) => end_by_fault(writer, fault.fault()),
    }
}
