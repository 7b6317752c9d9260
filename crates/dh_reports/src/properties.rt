//! The line of a property, whether it is listed as vacant or as matching.

ghost use Rattle.dh_reports.specs.ReportTexts.{property_line};

use crate::columns::{left_aligned, plain, put_line, right_aligned};
use crate::figures::pence_text;
use crate::record_lines::ReportLine;
use dh_types::{Output, Property};
use itoa::Buffer;
use std::io::Write;

impl ReportLine for Property {
    ghost line = { property_line };

    fn put<W: Write>(&self, writer: &mut W) -> Result<(), Output> {
        put_line(
            writer,
            &[
                left_aligned(8, self.number.as_str()),
                left_aligned(5, self.property_type.as_str()),
                right_aligned(2, Buffer::new().format(self.rooms.number())),
                right_aligned(12, pence_text(u64::from(self.rent.pence())).as_str()),
                plain(self.city.as_str()),
            ],
        )
    }

    fn has_one_line(&self) {
        let _number = self.number.as_str();
        let _city = self.city.as_str();
    }
}
