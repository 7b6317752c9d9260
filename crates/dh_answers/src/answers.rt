//! The answer to each question.

ghost use Rattle.std.specs.Prelude.{◌≡◌, if◌then◌else◌, option_map, IfOk};
ghost use Rattle.std.specs.FinMap as fin;
ghost use Rattle.dh_types.specs.declared.reply.Refusal.TheVariants.{RunOpen};
ghost use Rattle.dh_types.specs.Reports.{report_of};
ghost use Rattle.dh_model.specs.Answers.{is_put_off, matching_report, report};

use crate::owner_statements::owner_statement;
use crate::run_reports::run_report;
use crate::{arrears, branches, matching, statement, vacant};
use dh_books::Books;
use dh_types::{Answer, ClientDay, Question, Refusal, field};
use std::alloc::{AllocError, Global};

// The properties that match; refused 2 with field 3 where no client has the number.
fn matching_report(alloc: Global, books: Books, asked: ClientDay) -> Result<Answer, AllocError>
    ensures { IfOk result (λ answer. report_of answer ≡ matching_report books.books (fin.get books.books.clients asked.client) asked.day) }
{
    let client = match books.client(&asked.client) {
        Some(client) => client.try_clone(alloc)?,
        None => return Ok(Answer::Refused(Refusal::Unknown(field::ASKED_ABOUT))),
    };
    Ok(Answer::Matching(matching(alloc, books, &client, asked.day.day())?))
}

/// Whether an open run puts the question off: its answer would show the run half made.
pub fn is_put_off(question: &Question) -> bool
    ensures { result ≡ is_put_off question.now }
{
    matches!(
        question,
        Question::Statement(_) | Question::Arrears(_) | Question::Run(_) | Question::Owner(_)
    )
}

// The refusal of a question that an open run puts off.
fn open_refusal(books: &Books, question: &Question) -> Option<Refusal>
    ensures { result ≡ (if is_put_off question.now then option_map (λ run. RunOpen run.month) books.now.open_run else None) }
{
    if is_put_off(question) {
        books
            .open_run()
            .map(|run| Refusal::RunOpen(run.month.month()))
    } else {
        None
    }
}

/// What the books answer where no run is open. They end here: rows that the answer lists are moved out of them. It fails where memory
/// runs out.
pub fn answer_passed(alloc: Global, books: Books, question: &Question) -> Result<Answer, AllocError>
    ensures { IfOk result (λ answer. report_of answer ≡ report (record books { open_run = None }) question.now) }
{
    match *question {
        Question::Branches => Ok(Answer::Branches(branches(alloc, books)?)),
        Question::Vacant(day) => Ok(Answer::Vacant(vacant(alloc, books, day.day())?)),
        Question::Matching(asked) => matching_report(alloc, books, asked),
        Question::Statement(lease) => statement(alloc, &books, lease),
        Question::Arrears(branch) => arrears(alloc, &books, &branch),
        Question::Run(month) => run_report(alloc, &books, month),
        Question::Owner(asked) => owner_statement(alloc, &books, asked),
    }
}

/// What the books answer to the question. While a run is open, `statement`, `arrears`, `run` and `owner` are refused 10 with
/// its month. The books end here: rows that the answer lists are moved out of them. It fails where memory runs out.
pub fn answer(alloc: Global, books: Books, question: &Question) -> Result<Answer, AllocError>
    ensures { IfOk result (λ answer. report_of answer ≡ report books question.now) }
{
    match open_refusal(&books, question) {
        Some(refusal) => Ok(Answer::Refused(refusal)),
        None => answer_passed(alloc, books, question),
    }
}
