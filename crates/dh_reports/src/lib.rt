//! Reports: what an answer holds, as lines of text.
#![tactic(auto)]

ghost use Rattle.std.specs.Prelude.{◌≡◌};
ghost use Rattle.dh_types.specs.Output.{Puts};
ghost use Rattle.dh_types.specs.Reports.{report_of};
ghost use Rattle.dh_reports.specs.ReportTexts.{line_count, report_text};

mod branches;
mod columns;
mod debts;
mod figures;
pub mod laws;
mod owner_statements;
mod properties;
mod record_lines;
mod run_reports;
mod statements;
mod sums;

use crate::debts::put_arrears;
use crate::owner_statements::put_owner_statement;
use crate::record_lines::put_each;
use crate::run_reports::put_run;
use crate::statements::{put_statement, statement_lines};
use dh_types::{Answer, Output};
use std::io::Write;

/// The number of lines that `write` writes for the answer; a refusal has none.
pub fn lines(answer: &Answer) -> u64
    ensures { result ≡ line_count (report_of answer.now) }
{
    let count = match answer {
        Answer::Branches(branches) => branches.len(),
        Answer::Vacant(properties) | Answer::Matching(properties) => properties.len(),
        Answer::Statement(statement) => statement_lines(&statement.charges, &statement.receipts),
        Answer::Arrears(arrears) => arrears.debts.len() + 1,
        Answer::Run(run) => run.parts.len() + 1,
        Answer::Owner(statement) => statement.lines.len() + 2,
        Answer::Refused(_) => 0,
    };
    count as u64
}

/// Writes the answer's report; a refusal has no text. It takes no memory.
/// At an `Output` the writer failed, and a beginning of the report was written.
pub fn write<W: Write>(answer: &Answer, writer: &mut W) -> Result<(), Output>
    ensures { Puts (W.contents writer.old) (W.contents writer.new) result (report_text (report_of answer.now)) }
{
    match answer {
        Answer::Branches(branches) => put_each(branches, writer),
        Answer::Vacant(properties) | Answer::Matching(properties) => put_each(properties, writer),
        Answer::Statement(statement) => put_statement(statement, writer),
        Answer::Arrears(arrears) => put_arrears(arrears, writer),
        Answer::Run(run) => put_run(run, writer),
        Answer::Owner(statement) => put_owner_statement(statement, writer),
        Answer::Refused(_) => Ok(()),
    }
}
