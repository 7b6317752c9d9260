//! Commands that make, open and post rent runs.

ghost use Rattle.std.specs.Prelude.{◌≡◌, IfOk, option_copied};
ghost use Rattle.dh_model.specs.Machine.{posted, posted_sum, resumed, run_made, run_opened};
ghost use Rattle.dh_model.specs.Runs.{batch_size};

use crate::Stepped;
use dh_books::Books;
use dh_leases::{batches, with_run};
use dh_model::OpenRun;
use dh_types::{BatchCount, EntryMonth, Pence, Progress, Refusal, Reply, Run, RunSum};
use std::alloc::{AllocError, Global};

// What the run of the month comes to: nothing where there is none.
fn posted_sum(month: EntryMonth, row: Option<&Run>) -> RunSum
    ensures { result ≡ posted_sum month (option_copied row.entry) }
{
    match row {
        Some(run) => run.sum(),
        None => RunSum {
            month,
            count: 0,
            total: Pence::of_pence(0),
        },
    }
}

// The run of the row's month, made in one step.
pub(crate) fn run_made(alloc: Global, books: Books, row: &Run) -> Result<Stepped, AllocError>
    requires { row.now.month ≡ books.books.next }
    ensures { IfOk result (λ s. (s.books, s.reply) ≡ run_made batch_size books row.now) }
{
    let mut books = with_run(alloc, books, row.month, row.key)?;
    let sum = posted_sum(row.month, books.run(&row.month));
    books.set_open_run(None);
    Ok(Stepped {
        books,
        reply: Reply::Posted(sum),
    })
}

// The run of the row's month, opened: no batch is done yet.
pub(crate) fn run_opened(alloc: Global, books: Books, row: &Run) -> Result<Stepped, AllocError>
    requires { row.now.month ≡ books.books.next }
    ensures { IfOk result (λ s. (s.books, s.reply) ≡ run_opened batch_size books row.now) }
{
    let mut books = with_run(alloc, books, row.month, row.key)?;
    books.set_open_run(Some(OpenRun {
        month: row.month,
        done: 0,
    }));
    Ok(Stepped {
        books,
        reply: Reply::Opened(row.month),
    })
}

// So many batches more of this run, which is closed where none is left.
fn posted(
    alloc: Global,
    mut books: Books,
    count: BatchCount,
    run: OpenRun,
) -> Result<Stepped, AllocError>
    ensures { IfOk result (λ s. (s.books, s.reply) ≡ posted batch_size books.books count run) }
{
    let all = batches(alloc, &books, run.month)?;
    let more = u128::from(count.number());
    if all.saturating_sub(run.done) <= more {
        let sum = posted_sum(run.month, books.run(&run.month));
        books.set_open_run(None);
        return Ok(Stepped {
            books,
            reply: Reply::Posted(sum),
        });
    }
    let done = run.done + more;
    books.set_open_run(Some(OpenRun {
        month: run.month,
        done,
    }));
    Ok(Stepped {
        books,
        reply: Reply::Progress(Progress {
            month: run.month,
            done,
            of: all,
        }),
    })
}

// So many batches more of the open run.
pub(crate) fn resumed(
    alloc: Global,
    mut books: Books,
    count: BatchCount,
) -> Result<Stepped, AllocError>
    ensures { IfOk result (λ s. (s.books, s.reply) ≡ resumed batch_size books.books count books.open_run) }
{
    match books.open_run() {
        Some(run) => posted(alloc, books, count, run),
        None => {
            books.set_open_run(None);
            Ok(Stepped {
                books,
                reply: Reply::Refused(Refusal::NoRun),
            })
        }
    }
}
