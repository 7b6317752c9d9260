//! A law of reports. Its function only looks at the texts of an answer, each of which is known to have no line feed where it is looked at.

ghost use Rattle.std.specs.Prelude.{◌≡◌, length};
ghost use Rattle.std.specs.List.{flat_map};
ghost use Rattle.dh_types.specs.Reports.{report_of};
ghost use Rattle.dh_reports.specs.Columns.{line_feeds};
ghost use Rattle.dh_reports.specs.ReportTexts.{line_count, report_text};

use crate::record_lines::ReportLine;
use dh_types::Answer;

// Each record has one line.
fn each_has_one_line<L: ReportLine>(records: &[L])
    ensures { line_feeds (flat_map L.line records.now) ≡ length records.now }
{
    for record in records {
        record.has_one_line();
    }
}

/// The number that `lines` gives for an answer is that of the line feeds in its report.
pub fn lines_are_line_feeds(answer: &Answer)
    ensures { line_count (report_of answer.now) ≡ line_feeds (report_text (report_of answer.now)) }
{
    match answer {
        Answer::Branches(branches) => each_has_one_line(branches),
        Answer::Vacant(properties) | Answer::Matching(properties) => each_has_one_line(properties),
        Answer::Statement(statement) => {
            statement.lease.has_one_line();
            each_has_one_line(&statement.charges);
            each_has_one_line(&statement.receipts);
        }
        Answer::Arrears(arrears) => each_has_one_line(&arrears.debts),
        Answer::Run(run) => each_has_one_line(&run.parts),
        Answer::Owner(statement) => each_has_one_line(&statement.lines),
        Answer::Refused(_) => (),
    }
}
