//! Running a batch: each record is read, answered and its line written, and then the next one.

ghost use Rattle.std.specs.Prelude.{◌≡◌, false, IfSome, if◌then◌else◌};
ghost use Rattle.dh_agency.specs.Agency.{IsClean, LeavesItsTables};
ghost use Rattle.dh_lines.specs.Batch.{EndsSo, Halts, LeavesAnswered};

use crate::outcome::{BatchFault, Summary};
use crate::records::{answer, end_by_reading};
use crate::watched_reader::{Input, Watching};
use csv::{ByteRecord, ReaderBuilder};
use dh_agency::Agency;
use sqlite::Alter;
use std::alloc::Global;
use std::io::{Read, Write};

// A refusal counts for one.
fn count_of(is_refused: bool) -> u64
    ensures { result ≡ (if is_refused then 1 else 0) }
{
    is_refused as u64
}

/// Answers each record of the input by its line, which is written before the next record is read, and gives the counts
/// of records and refusals.
///
/// At an `Agency` fault the agency answered it, or memory ran out for a text of the record. At `Unread` memory for reading ran out, or `csv`
/// could not read on though the reader never failed. At both the fault's line was written, as far as the writer took it, and if the agency
/// goes on, nothing of the record was done. At `Input` the reader failed, or 2^64 - 1 records were answered; what was written are whole
/// lines. At `Output` the writer failed in a line, whose command was carried out.
pub fn batch<S: Alter, R: Read, W: Write>(
    alloc: Global,
    agency: &mut Agency<S>,
    reader: &mut R,
    writer: &mut W,
) -> Result<Summary, BatchFault>
    ensures ends { IsClean S.Store agency.new → IfSome (R.remaining reader.old)
        (EndsSo S.Store agency.old agency.new (W.contents writer.old) (W.contents writer.new) result) }
    ensures crash { IsClean S.Store agency.new → agency.old.is_stopped ≡ false → LeavesItsTables S.Store agency.old
        → LeavesAnswered S.Store agency.old agency.new }
    ensures left { IsClean S.Store agency.new → LeavesItsTables S.Store agency.old → agency.new.is_stopped ≡ false → LeavesItsTables S.Store agency.new }
    ensures halts { Halts (λ it. it) S.Store agency.old agency.new result }
{
    let mut records = ReaderBuilder::new()
        .has_headers(false)
        .flexible(true)
        .from_reader(alloc, Watching::new(reader));
    let mut row = ByteRecord::new(alloc);
    let mut refused = 0;
    for n in 0..u64::MAX {
        match records.read_byte_record(&mut row) {
            Ok(true) => {}
            Ok(false) => return Ok(Summary {
                records: n,
                refused,
            }),
            Err(error) => {
                let failure = records.get_ref().failure();
                let halt = end_by_reading(writer, n + 1, &error, failure);
                return Err(BatchFault::from(halt));
            }
        }
        let is_refused = answer(alloc, agency, n + 1, &row, writer)?;
        refused += count_of(is_refused);
    }
    Err(BatchFault::Input(Input::full()))
}
