//! The lines that are questions: `show`, what is asked, and what about.

ghost use Rattle.std.specs.Prelude.{false};
ghost use Rattle.dh_fields.specs.Lines.{arrears_form, branches_form, matching_form, question_forms, value_among};
ghost use Rattle.dh_fields.specs.Lines.{owner_month_form, shown_run_form, statement_form, vacant_form};
ghost use Rattle.dh_fields.specs.Readings.{IsAsWanted, ReadsForm};

use crate::line::Line;
use crate::unread::Unread;
use dh_types::{ClientDay, OwnerMonth, Question};

// show,branches
fn read_branches(line: &Line) -> Result<Question, Unread>
    ensures { ReadsForm branches_form 2 line.now result }
{
    line.end(2)?;
    Ok(Question::Branches)
}

// show,vacant,DAY
fn read_vacant(line: &Line) -> Result<Question, Unread>
    ensures { ReadsForm vacant_form 2 line.now result }
{
    let day = line.day(3)?;
    line.end(3)?;
    Ok(Question::Vacant(day))
}

// show,matching,CLIENT,DAY
fn read_matching(line: &Line) -> Result<Question, Unread>
    ensures { ReadsForm matching_form 2 line.now result }
{
    let asked = ClientDay {
        client: line.id(3)?,
        day: line.day(4)?,
    };
    line.end(4)?;
    Ok(Question::Matching(asked))
}

// show,statement,LEASE
fn read_statement(line: &Line) -> Result<Question, Unread>
    ensures { ReadsForm statement_form 2 line.now result }
{
    let lease = line.count(3)?;
    line.end(3)?;
    Ok(Question::Statement(lease))
}

// show,arrears,BRANCH
fn read_arrears(line: &Line) -> Result<Question, Unread>
    ensures { ReadsForm arrears_form 2 line.now result }
{
    let branch = line.id(3)?;
    line.end(3)?;
    Ok(Question::Arrears(branch))
}

// show,run,MONTH
fn read_shown_run(line: &Line) -> Result<Question, Unread>
    ensures { ReadsForm shown_run_form 2 line.now result }
{
    let month = line.month(3)?;
    line.end(3)?;
    Ok(Question::Run(month))
}

// show,owner,OWNER,MONTH
fn read_owner_month(line: &Line) -> Result<Question, Unread>
    ensures { ReadsForm owner_month_form 2 line.now result }
{
    let asked = OwnerMonth {
        owner: line.id(3)?,
        month: line.month(4)?,
    };
    line.end(4)?;
    Ok(Question::Owner(asked))
}

/// The question that the line is, whose first field is `show`. `Field` has the number of its first bad field, which is 2 where
/// the question is unknown.
pub(crate) fn read_shown(line: &Line) -> Result<Question, Unread>
    ensures { IsAsWanted result (value_among question_forms 2 line.now) false }
{
    match line.text(2)? {
        "branches" => read_branches(line),
        "vacant" => read_vacant(line),
        "matching" => read_matching(line),
        "statement" => read_statement(line),
        "arrears" => read_arrears(line),
        "run" => read_shown_run(line),
        "owner" => read_owner_month(line),
        _ => Err(Unread::Field(2)),
    }
}
