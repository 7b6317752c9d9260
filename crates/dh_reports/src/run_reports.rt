//! The report of a closed run.

ghost use Rattle.dh_types.specs.Output.{Puts};
ghost use Rattle.dh_reports.specs.ReportTexts.{count_line, part_line, run_text};

use crate::columns::{left_aligned, put_line, right_aligned};
use crate::figures::{month_text, pence_text};
use crate::record_lines::{ReportLine, put_each};
use dh_types::{Output, Part, Pence, RunReport};
use itoa::Buffer;
use std::io::Write;

// Writes the name of what was counted, the count and the total.
fn put_count<W: Write>(writer: &mut W, name: &str, count: u32, total: Pence) -> Result<(), Output>
    ensures { Puts (W.contents writer.old) (W.contents writer.new) result (count_line name.now count total) }
{
    put_line(
        writer,
        &[
            left_aligned(8, name),
            right_aligned(8, Buffer::new().format(count)),
            right_aligned(12, pence_text(total.pence()).as_str()),
        ],
    )
}

impl ReportLine for Part {
    ghost line = { part_line };

    fn put<W: Write>(&self, writer: &mut W) -> Result<(), Output> {
        put_count(writer, self.branch.as_str(), self.count, self.total)
    }

    fn has_one_line(&self) {
        let _branch = self.branch.as_str();
    }
}

/// Writes the parts of the run and what it comes to; at an `Output` a beginning of their lines was written.
pub fn put_run<W: Write>(run: &RunReport, writer: &mut W) -> Result<(), Output>
    ensures { Puts (W.contents writer.old) (W.contents writer.new) result (run_text run.now.parts.items run.now.sum) }
{
    put_each(&run.parts, writer)?;
    let sum = &run.sum;
    put_count(
        writer,
        month_text(sum.month.month()).as_str(),
        sum.count,
        sum.total,
    )
}
