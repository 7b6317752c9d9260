//! One step of the machine.

ghost use Rattle.std.specs.Prelude.{◌≡◌, IfOk};
ghost use Rattle.dh_model.specs.Machine.{accepted, carried_out, changed, step};
ghost use Rattle.dh_model.specs.Runs.{batch_size};
ghost use Rattle.dh_model.specs.Verdicts.{verdict_on};
ghost use Rattle.dh_model.specs.declared.rows.Verdict.TheVariants as verdict;

use crate::changes::apply_change;
use crate::runs::{resumed, run_made, run_opened};
use dh_answers::decide;
use dh_books::Books;
use dh_model::{Change, Verdict};
use dh_types::{Command, Reply};
use std::alloc::{AllocError, Global};

/// The books after a command, and the reply to it.
#[derive(Drop)]
pub struct Stepped {
    pub books: Books,
    pub reply: Reply,
}

// The change put into the books, and accepted.
fn put(mut books: Books, change: Change) -> Result<Stepped, AllocError>
    ensures books { IfOk result (λ s. s.books ≡ record books { books = changed change books.books }) }
    ensures reply { IfOk result (λ s. s.reply ≡ accepted change) }
{
    let reply = change.reply();
    apply_change(&mut books, change)?;
    Ok(Stepped { books, reply })
}

// The accepted change of the command, carried out.
fn carried_out(
    alloc: Global,
    books: Books,
    command: &Command,
    change: Change,
) -> Result<Stepped, AllocError>
    requires { verdict_on books.books books.open_run command.now ≡ verdict.Change change }
    ensures { IfOk result (λ s. (s.books, s.reply) ≡ carried_out batch_size books command.now change) }
{
    match command {
        Command::Run(_) => match change {
            Change::Open(row) => run_made(alloc, books, &row),
            change => put(books, change),
        },
        Command::Open(_) => match change {
            Change::Open(row) => run_opened(alloc, books, &row),
            change => put(books, change),
        },
        Command::Post(count) => match change {
            Change::Post => resumed(alloc, books, *count),
            change => put(books, change),
        },
        _ => put(books, change),
    }
}

/// One step: the books after the command, and the reply. A refusal and what was done before change nothing. On want of
/// memory the books are given up, so no half of a change is seen.
pub fn step(alloc: Global, books: Books, command: &Command) -> Result<Stepped, AllocError>
    ensures { IfOk result (λ s. (s.books, s.reply) ≡ step batch_size books command.now) }
{
    match decide(alloc, &books, command)? {
        Verdict::Change(change) => carried_out(alloc, books, command, change),
        Verdict::Already(reply) => Ok(Stepped { books, reply }),
        Verdict::Refused(refusal) => Ok(Stepped {
            books,
            reply: Reply::Refused(refusal),
        }),
    }
}
