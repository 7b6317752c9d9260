//! What a rent run came to.

ghost use Rattle.std.specs.Prelude.{◌≡◌, IfOk, nat_eq};
ghost use Rattle.std.specs.List.{filter};
ghost use Rattle.std.specs.FinMap as fin;
ghost use Rattle.dh_types.specs.Reports.{report_of};
ghost use Rattle.dh_model.specs.Answers.{run_report};

use dh_books::Books;
use dh_types::{Answer, EntryMonth, Part, Refusal, RunReport};
use std::alloc::{AllocError, Global};

// The parts of the month's run, rising by branch.
fn parts(alloc: Global, books: &Books, month: EntryMonth) -> Result<Vec<Part>, AllocError>
    ensures { IfOk result (λ rows. rows.items ≡ filter (λ part. nat_eq part.month month) (fin.values books.now.books.parts)) }
{
    books
        .parts()
        .copied()
        .filter(|part| part.month == month)
        .collect(alloc)
}

/// The parts of the month's run, rising by branch, and what it comes to in pence; refused 14 where the month has no run
/// or an open one. It fails where memory runs out.
pub(crate) fn run_report(
    alloc: Global,
    books: &Books,
    month: EntryMonth,
) -> Result<Answer, AllocError>
    ensures { IfOk result (λ answer. report_of answer ≡ run_report books.now.books (fin.get books.now.books.runs month)) }
{
    let Some(run) = books.run(&month) else {
        return Ok(Answer::Refused(Refusal::NoRun));
    };
    if !run.is_closed {
        return Ok(Answer::Refused(Refusal::NoRun));
    }
    let sum = run.sum();
    let parts = parts(alloc, books, run.month)?;
    Ok(Answer::Run(RunReport { parts, sum }))
}
