//! The line of a branch.

ghost use Rattle.dh_reports.specs.ReportTexts.{branch_line};

use crate::columns::{left_aligned, plain, put_line};
use crate::record_lines::ReportLine;
use dh_types::{Branch, Output};
use std::io::Write;

impl ReportLine for Branch {
    ghost line = { branch_line };

    fn put<W: Write>(&self, writer: &mut W) -> Result<(), Output> {
        put_line(
            writer,
            &[
                left_aligned(8, self.number.as_str()),
                plain(self.city.as_str()),
            ],
        )
    }

    fn has_one_line(&self) {
        let _number = self.number.as_str();
        let _city = self.city.as_str();
    }
}
