//! Records that stand one a line.

ghost use Rattle.std.specs.List.{flat_map};
ghost use Rattle.dh_types.specs.Output.{Puts};

use dh_types::Output;
use std::io::Write;

/// A record that has a line in a report.
pub trait ReportLine {
    ghost use Rattle.std.specs.Prelude.{ℕ, List, ◌≡◌};
    ghost use Rattle.dh_reports.specs.Columns.{line_feeds};

    ghost line: { Self → List ℕ };

    /// Writes the line; at an `Output` a beginning of it was written.
    fn put<W: Write>(&self, writer: &mut W) -> Result<(), Output>
        ensures { Puts (W.contents writer.old) (W.contents writer.new) result (line self.now) };

    /// Looks at the record's texts. None has a line feed, so the line has the one at its end.
    fn has_one_line(&self)
        ensures { line_feeds (line self.now) ≡ 1 };
}

/// Writes the line of each record; at an `Output` a beginning of them was written.
pub(crate) fn put_each<L: ReportLine, W: Write>(records: &[L], writer: &mut W) -> Result<(), Output>
    ensures { Puts (W.contents writer.old) (W.contents writer.new) result (flat_map L.line records.now) }
{
    for record in records {
        record.put(writer)?;
    }
    Ok(())
}
