//! The statement of a lease.

ghost use Rattle.std.specs.Prelude.{◌≡◌, ◌+◌, codes, length};
ghost use Rattle.dh_types.specs.Output.{Puts};
ghost use Rattle.dh_reports.specs.ReportTexts.{charge_line, entry_line, lease_line, receipt_line, statement_text};

use crate::columns::{left_aligned, plain, put_line, right_aligned};
use crate::figures::{day_text, pence_text};
use crate::record_lines::{ReportLine, put_each};
use crate::sums::put_sum;
use dh_types::{Charge, Day, Lease, Output, Receipt, Statement};
use itoa::Buffer;
use std::io::Write;

// Writes what was charged or paid on a day.
fn put_entry<W: Write>(writer: &mut W, word: &str, day: Day, pence: u32) -> Result<(), Output>
    ensures { Puts (W.contents writer.old) (W.contents writer.new) result (entry_line word.now day pence) }
{
    put_line(
        writer,
        &[
            left_aligned(8, word),
            plain(day_text(day).as_str()),
            right_aligned(12, pence_text(u64::from(pence)).as_str()),
        ],
    )
}

impl ReportLine for Charge {
    ghost line = { charge_line };

    fn put<W: Write>(&self, writer: &mut W) -> Result<(), Output> {
        put_entry(writer, "charge", self.day, self.amount.pence())
    }

    fn has_one_line(&self) {}
}

impl ReportLine for Receipt {
    ghost line = { receipt_line };

    fn put<W: Write>(&self, writer: &mut W) -> Result<(), Output> {
        let payment = self.payment;
        put_entry(
            writer,
            payment.kind.as_str(),
            payment.day.day(),
            payment.amount.pence(),
        )
    }

    fn has_one_line(&self) {}
}

impl ReportLine for Lease {
    ghost line = { lease_line };

    fn put<W: Write>(&self, writer: &mut W) -> Result<(), Output> {
        let terms = &self.terms;
        put_line(
            writer,
            &[
                right_aligned(8, Buffer::new().format(terms.number.number())),
                left_aligned(8, terms.client.as_str()),
                left_aligned(8, terms.property.as_str()),
                right_aligned(12, pence_text(u64::from(self.rent.pence())).as_str()),
            ],
        )
    }

    fn has_one_line(&self) {
        let _client = self.terms.client.as_str();
        let _property = self.terms.property.as_str();
    }
}

/// Writes the lease, its charges, its receipts and its balance; at an `Output` a beginning of their lines was written.
pub(crate) fn put_statement<W: Write>(statement: &Statement, writer: &mut W) -> Result<(), Output>
    ensures { Puts (W.contents writer.old) (W.contents writer.new) result
        (statement_text statement.now.lease statement.now.charges.items statement.now.receipts.items statement.now.balance) }
{
    statement.lease.put(writer)?;
    put_each(&statement.charges, writer)?;
    put_each(&statement.receipts, writer)?;
    put_sum(writer, "balance", 10, statement.balance)
}

/// How many lines the statement has: its lease's, its charges', its receipts' and its balance's.
pub(crate) fn statement_lines(charges: &[Charge], receipts: &[Receipt]) -> usize
    ensures { result ≡ length charges.now + length receipts.now + 2 }
{
    charges.len() + receipts.len() + 2
}
