//! The arrears of a branch.

ghost use Rattle.std.specs.Prelude.{◌≡◌};
ghost use Rattle.dh_types.specs.Output.{Puts};
ghost use Rattle.dh_reports.specs.ReportTexts.{arrears_text, debt_line, name_text};

use crate::columns::{left_aligned, plain, put_line, right_aligned};
use crate::figures::money_text;
use crate::record_lines::{ReportLine, put_each};
use crate::sums::put_sum;
use dh_types::{Arrears, Debt, Output};
use itoa::Buffer;
use std::io::Write;

impl ReportLine for Debt {
    ghost line = { debt_line };

    fn put<W: Write>(&self, writer: &mut W) -> Result<(), Output> {
        let name = match &self.name {
            Some(name) => name.as_str(),
            None => "",
        };
        put_line(
            writer,
            &[
                right_aligned(8, Buffer::new().format(self.lease.number())),
                left_aligned(8, self.client.as_str()),
                right_aligned(12, money_text(self.balance).as_str()),
                plain(name),
            ],
        )
    }

    fn has_one_line(&self) {
        let _client = self.client.as_str();
        if let Some(name) = &self.name {
            let _name = name.as_str();
        }
    }
}

/// Writes the debts and their sum; at an `Output` a beginning of their lines was written.
pub(crate) fn put_arrears<W: Write>(arrears: &Arrears, writer: &mut W) -> Result<(), Output>
    ensures { Puts (W.contents writer.old) (W.contents writer.new) result (arrears_text arrears.now.debts.items arrears.now.total) }
{
    put_each(&arrears.debts, writer)?;
    put_sum(writer, "total", 8, arrears.total)
}
