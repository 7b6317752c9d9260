//! Answering one record: the command is carried out or the question is asked, and then its line is written.

ghost use Rattle.std.specs.Prelude.{◌≡◌, Some, true, false, IfErr};
ghost use Rattle.csv.specs.Reading.{error_kind, stops_reader};
ghost use Rattle.csv.specs.Records.{fields_of};
ghost use Rattle.dh_agency.specs.Agency.{IsClean, Leaves, LeavesItsTables, stand};
ghost use Rattle.dh_lines.specs.Session.{answered};
ghost use Rattle.dh_lines.specs.Batch.{Answers, EndsByFault, EndsByReading, EndsUnread, Halts, IsWithin, OnlyOfRequests, batch_fault};

use crate::outcome::Halt;
use crate::replies::{put_fault_line, put_response_line};
use crate::watched_reader::Input;
use csv::{ByteRecord, Error};
use dh_agency::{Agency, respond};
use dh_fields::read_line;
use dh_types::Fault;
use sqlite::Alter;
use std::alloc::Global;
use std::io::Write;

/// Why a record was not read, though the reader had not failed: memory ran out, or `csv` had another error. Only [`end_by_reading`] makes it, of
/// such an error.
#[derive(Clone, Copy, Debug, PartialEq, Eq)]
pub struct Unread {
    // The record's number, which clauses alone read.
    number: u64,
}

// Writes the fault's line, and keeps what came of that.
fn end_by_fault<W: Write>(writer: &mut W, number: u64, fault: Fault) -> Halt
    ensures { EndsByFault (W.contents writer.old) (W.contents writer.new) number fault result }
{
    let outcome = put_fault_line(writer, number, fault);
    Halt::Fault(fault, outcome)
}

// Writes the line of fault 21, and keeps what came of that.
fn end_unread<W: Write>(writer: &mut W, number: u64) -> Halt
    ensures { EndsUnread (W.contents writer.old) (W.contents writer.new) number result }
{
    let outcome = put_fault_line(writer, number, Fault::Memory);
    Halt::Unread(Unread { number }, outcome)
}

/// What this error of the reading of a record is, where the reader failed so or did not: a failing reader is told as that. Else memory
/// ran out, or `csv` had an error of a reader that never failed, and both are told as fault 21.
pub fn end_by_reading<W: Write>(
    writer: &mut W,
    number: u64,
    error: &Error,
    failure: Option<Input>,
) -> Halt
    requires { stops_reader (error_kind error.now) ≡ true }
    ensures { EndsByReading W.contents writer.old writer.new number (error_kind error.now) failure result }
{
    match failure {
        Some(input) if error.is_io_error() => Halt::Input(input),
        _ => end_unread(writer, number),
    }
}

/// Answers the record: whether it was refused. At a fault of an agency that goes on nothing was done; at an `Output` what it asks for was.
pub fn answer<S: Alter, W: Write>(
    alloc: Global,
    agency: &mut Agency<S>,
    number: u64,
    row: &ByteRecord,
    writer: &mut W,
) -> Result<bool, Halt>
    ensures answers { IsClean S.Store agency.new
        → Answers S.Store agency.old agency.new (W.contents writer.old) (W.contents writer.new) number
        (answered (stand S.Store agency.old) (fields_of row.now)) (IsWithin (stand S.Store agency.old) (Some (fields_of row.now))) result }
    ensures asked { IfErr result (λ it. OnlyOfRequests (fields_of row.now) it) }
    ensures crash { IsClean S.Store agency.new → agency.old.is_stopped ≡ false → LeavesItsTables S.Store agency.old
        → Leaves S.Store agency.new (IsWithin (stand S.Store agency.old) (Some (fields_of row.now))) }
    ensures left { IsClean S.Store agency.new → LeavesItsTables S.Store agency.old → agency.new.is_stopped ≡ false → LeavesItsTables S.Store agency.new }
    ensures halts { Halts batch_fault S.Store agency.old agency.new result }
{
    match read_line(alloc, row) {
        Ok(request) => match respond(alloc, agency, request) {
            Ok(response) => {
                let is_refused = response.is_refusal();
                put_response_line(writer, number, &response)?;
                Ok(is_refused)
            }
            Err(fault) => Err(end_by_fault(writer, number, fault)),
        },
        Err(_) => Err(end_by_fault(writer, number, Fault::Memory)),
    }
}
