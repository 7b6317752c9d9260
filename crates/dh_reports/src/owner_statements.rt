//! What an owner is told of a month.

ghost use Rattle.std.specs.Prelude.{◌≡◌};
ghost use Rattle.dh_types.specs.Output.{Puts};
ghost use Rattle.dh_reports.specs.ReportTexts.{owner_line, owner_text};

use crate::columns::{left_aligned, put_line, right_aligned};
use crate::figures::pence_text;
use crate::record_lines::{ReportLine, put_each};
use crate::sums::{put_sum, put_sums};
use dh_types::{Output, OwnerLine, OwnerStatement};
use itoa::Buffer;
use std::io::Write;

impl ReportLine for OwnerLine {
    ghost line = { owner_line };

    fn put<W: Write>(&self, writer: &mut W) -> Result<(), Output> {
        put_line(
            writer,
            &[
                right_aligned(8, Buffer::new().format(self.lease.number())),
                left_aligned(8, self.property.as_str()),
                right_aligned(12, pence_text(u64::from(self.amount.pence())).as_str()),
                right_aligned(12, pence_text(self.fee.pence()).as_str()),
            ],
        )
    }

    fn has_one_line(&self) {
        let _property = self.property.as_str();
    }
}

/// Writes the lines, both sums, and what is left; at an `Output` a beginning of their lines was written.
pub(crate) fn put_owner_statement<W: Write>(
    statement: &OwnerStatement,
    writer: &mut W,
) -> Result<(), Output>
    ensures { Puts (W.contents writer.old) (W.contents writer.new) result
        (owner_text statement.now.lines.items statement.now.total statement.now.fees statement.now.payable) }
{
    put_each(&statement.lines, writer)?;
    put_sums(writer, "total", statement.total, statement.fees)?;
    put_sum(writer, "payable", 8, statement.payable)
}
