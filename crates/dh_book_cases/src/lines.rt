//! What is done at a line, and the text of its answer.

use crate::answers::{balanced, matched, shown, vacancies};
use crate::calls::{make_run, make_whole, post, put, say, tell};
use crate::lists::{counted, listed};
use crate::lookups::found;
use crate::rules::{audited, is_kept};
use crate::runs::{
    batched, clear_charges, clear_parts, fees_posted, open_run, posted, set_open_run, version,
    whole_fees, whole_parts,
};
use crate::terms::{branch_dues, covered, due, dues_of, end, length, overlapping};
use dh_books::Books;
use dh_model::Verdict;
use dh_rules::decide;
use dh_test_kit::{Answer, Fields, Unreadable, command, request_if_any, row_of};
use dh_types::{Command, Reply, Request};
use std::alloc::{AllocError, Global};

/// Who is told the commands.
#[derive(Clone, Copy)]
pub(crate) enum Teller {
    Machine,
    /// The player of what can happen to tables.
    Player,
}

fn replied(
    alloc: Global,
    teller: Teller,
    books: &mut Books,
    command: &Command,
) -> Result<String, AllocError> {
    match teller {
        Teller::Machine => tell(alloc, books, command),
        Teller::Player => say(alloc, books, command),
    }
}

// The reply to a command, or the answer to a question.
fn requested(
    alloc: Global,
    teller: Teller,
    books: &mut Books,
    request: &Request,
) -> Result<String, AllocError> {
    match request {
        Request::Command(command) => replied(alloc, teller, books, command),
        Request::Question(question) => shown(alloc, books, question),
    }
}

// The reply that a verdict comes to; a change is accepted.
fn reply_of(verdict: &Verdict) -> Reply {
    match verdict {
        Verdict::Change(_) => Reply::Accepted,
        Verdict::Already(reply) => *reply,
        Verdict::Refused(refusal) => Reply::Refused(*refusal),
    }
}

fn decided(alloc: Global, books: &Books, command: &Command) -> Result<String, AllocError> {
    let verdict = decide(alloc, books, command)?;
    reply_of(&verdict).to_string(alloc)
}

// `judge,COMMAND`: the verdict, which changes nothing.
fn judged(alloc: Global, books: &Books, words: &str) -> Answer {
    let command = command(alloc, words)?;
    let text = decided(alloc, books, &command);
    drop(command);
    Ok(text?)
}

fn put_row(alloc: Global, books: &mut Books, words: &str) -> Result<(), Unreadable> {
    let row = row_of(alloc, words)?;
    Ok(put(books, row)?)
}

fn put_rows(alloc: Global, books: &mut Books, rows: &str) -> Result<(), Unreadable> {
    for words in rows.split("; ") {
        put_row(alloc, books, words)?;
    }
    Ok(())
}

// Whether such a line changes the books unasked, which it then did.
fn changed(alloc: Global, books: &mut Books, kind: &str, rest: &str) -> Result<bool, Unreadable> {
    let mut fields = Fields::of(rest);
    match kind {
        "put" => put_rows(alloc, books, rest)?,
        "post batches" => post(alloc, books, fields.month()?, fields.number()?)?,
        "make whole" => make_whole(alloc, books)?,
        "make run" => make_run(alloc, books, fields.key()?)?,
        "set open run" => set_open_run(books, &mut fields)?,
        "clear charges" => clear_charges(books, &mut fields)?,
        "clear parts" => clear_parts(books, &mut fields)?,
        _ => return Ok(false),
    }
    Ok(true)
}

// What the books are asked.
fn asked(alloc: Global, books: &Books, kind: &str, rest: &str) -> Answer {
    let mut fields = Fields::of(rest);
    match kind {
        "judge" => judged(alloc, books, rest),
        "audit" => audited(alloc, books),
        "rule" => is_kept(alloc, books, rest),
        "vacant" => vacancies(alloc, books, &mut fields),
        "matching" => matched(alloc, books, &mut fields),
        "find" => found(alloc, books, &mut fields),
        "rows" => listed(alloc, books, rest),
        "count" => counted(alloc, books, rest),
        "batches" => batched(alloc, books, &mut fields),
        "posted" => posted(alloc, books, &mut fields),
        "whole parts" => whole_parts(alloc, books, &mut fields),
        "posted fees" => fees_posted(alloc, books, &mut fields),
        "whole fees" => whole_fees(alloc, books, &mut fields),
        "open run" => open_run(alloc, books),
        "version" => version(alloc, books),
        "first" => Ok(books.first().to_string(alloc)?),
        "next" => Ok(books.next().to_string(alloc)?),
        "length" => length(alloc, books, &mut fields),
        "ends" => end(alloc, books, &mut fields),
        "covers" => covered(alloc, books, &mut fields),
        "overlap" => overlapping(alloc, books, &mut fields),
        "due" => due(alloc, books, &mut fields),
        "dues" => dues_of(alloc, books, &mut fields),
        "branch dues" => branch_dues(alloc, books, &mut fields),
        "balance" => balanced(alloc, books, &mut fields),
        _ => Err(Unreadable),
    }
}

// What the words without rows are answered.
fn answered_bare(alloc: Global, teller: Teller, books: &mut Books, words: &str) -> Answer {
    if let Some(request) = request_if_any(alloc, words)? {
        return Ok(requested(alloc, teller, books, &request)?);
    }
    let (kind, rest) = words.split_once(',').unwrap_or((words, ""));
    if changed(alloc, books, kind, rest)? {
        return Ok("ok".to_string(alloc)?);
    }
    asked(alloc, books, kind, rest)
}

/// What the words are answered. Rows behind ` with ` and between `; ` are put into the books first.
pub(crate) fn answered(alloc: Global, teller: Teller, books: &mut Books, words: &str) -> Answer {
    let Some((words, rows)) = words.split_once(" with ") else {
        return answered_bare(alloc, teller, books, words);
    };
    put_rows(alloc, books, rows)?;
    answered_bare(alloc, teller, books, words)
}

/// The text that an answer comes to.
pub(crate) fn replies_text(alloc: Global, answer: Answer) -> Result<String, AllocError> {
    match answer {
        Ok(text) => Ok(text),
        Err(Unreadable) => "not read".to_string(alloc),
    }
}

/// What the plain program answers to the line: its reply to a command, and its answer to a question.
pub fn answer_line(alloc: Global, books: &mut Books, line: &str) -> Result<String, AllocError> {
    replies_text(alloc, answered(alloc, Teller::Machine, books, line))
}
