//! Verdicts, answers and plans over sound tables of either version, each beside what the plain program makes of the books that are loaded
//! from the same tables.

ghost use Rattle.sqlite.specs.State.{HasCleanDisk};
ghost use Rattle.sqlite.specs.Held.{state};
ghost use Rattle.dh_runs.specs.Taking.{IsResting};

use dh_agency_test_kit::{Lived, line_over as told_over, problem_text, sound_books};
use dh_books::Books;
use dh_leases::{BatchRows, Plan, plan_of};
use dh_model::Verdict;
use dh_rules::{answer, decide};
use dh_runs::{Problem, plan_run};
use dh_store::{ask, look_up};
use dh_test_kit::{answer_text, request};
use dh_types::{Command, Question, Request};
use sqlite::{Alter, Connection};
use std::alloc::{AllocError, Global};
use std::fmt::Write;

fn verdict_text(alloc: Global, verdict: &Verdict) -> Result<String, AllocError> {
    match verdict {
        Verdict::Change(_) => "ok".to_string(alloc),
        Verdict::Already(reply) => reply.to_string(alloc),
        Verdict::Refused(refusal) => format!(in alloc; "{refusal}"),
    }
}

// What was found over the tables, and what the books have where that is something else.
fn both(alloc: Global, found: String, plain: String) -> Result<String, AllocError> {
    if found.as_str() == plain.as_str() {
        return Ok(found);
    }
    format!(in alloc; "{}, but by the books {}", found.as_str(), plain.as_str())
}

fn asked<S: Alter>(
    alloc: Global,
    conn: &mut Connection<S>,
    command: &Command,
) -> Result<String, Problem>
    requires { HasCleanDisk (state S.Store conn.old) → IsResting (state S.Store conn.old) }
{
    let books = sound_books(alloc, conn)?;
    let found = verdict_text(alloc, &ask(alloc, conn, command)?)?;
    let plain = verdict_text(alloc, &decide(alloc, &books, command)?)?;
    Ok(both(alloc, found, plain)?)
}

fn looked_up<S: Alter>(
    alloc: Global,
    conn: &mut Connection<S>,
    question: &Question,
) -> Result<String, Problem>
    requires { HasCleanDisk (state S.Store conn.old) → IsResting (state S.Store conn.old) }
{
    let books = sound_books(alloc, conn)?;
    let found = answer_text(alloc, &look_up(alloc, conn, question)?)?;
    let plain = answer_text(alloc, &answer(alloc, books, question)?)?;
    Ok(both(alloc, found, plain)?)
}

// The verdict on a command, or the answer to a question.
fn judged<S: Alter>(
    alloc: Global,
    conn: &mut Connection<S>,
    request: &Request,
) -> Result<String, Problem>
    requires { HasCleanDisk (state S.Store conn.old) → IsResting (state S.Store conn.old) }
{
    match request {
        Request::Command(command) => asked(alloc, conn, command),
        Request::Question(question) => looked_up(alloc, conn, question),
    }
}

fn either_text(alloc: Global, said: Result<String, Problem>) -> Result<String, AllocError> {
    match said {
        Ok(text) => Ok(text),
        Err(problem) => problem_text(alloc, problem),
    }
}

// The verdict on the command that the line is, or the answer to the question.
fn judge_text<S: Alter>(
    alloc: Global,
    conn: &mut Connection<S>,
    line: &str,
) -> Result<String, AllocError>
    requires { HasCleanDisk (state S.Store conn.old) → IsResting (state S.Store conn.old) }
{
    let Ok(request) = request(alloc, line) else {
        return "not read".to_string(alloc);
    };
    either_text(alloc, judged(alloc, conn, &request))
}

fn add_batch(text: &mut String, batch: &BatchRows) -> Result<(), AllocError> {
    let part = &batch.part;
    let charges = batch.charges.len();
    write!(
        text,
        " / {} {charges} of {} {}",
        part.branch, part.count, part.total
    )
}

// The batches that the run lacks: of each its branch and how many charges it adds, and how many of what sum the branch has with them.
fn plan_text(alloc: Global, plan: Option<Plan>) -> Result<String, AllocError> {
    let Some(plan) = plan else {
        return "no run".to_string(alloc);
    };
    let mut text = format!(in alloc; "{} behind {}", plan.month, plan.done)?;
    for batch in &plan.batches {
        add_batch(&mut text, batch)?;
    }
    Ok(text)
}

fn plan_by_books(alloc: Global, books: &Books) -> Result<Option<Plan>, AllocError> {
    match books.open_run() {
        Some(run) => Ok(Some(plan_of(alloc, books, run)?)),
        None => Ok(None),
    }
}

fn planned<S: Alter>(alloc: Global, conn: &mut Connection<S>) -> Result<String, Problem>
    requires { HasCleanDisk (state S.Store conn.old) → IsResting (state S.Store conn.old) }
{
    let books = sound_books(alloc, conn)?;
    let found = plan_text(alloc, plan_run(alloc, conn)?)?;
    let plain = plan_text(alloc, plan_by_books(alloc, &books)?)?;
    Ok(both(alloc, found, plain)?)
}

// The plan of the open run.
fn planned_text<S: Alter>(alloc: Global, conn: &mut Connection<S>) -> Result<String, AllocError>
    requires { HasCleanDisk (state S.Store conn.old) → IsResting (state S.Store conn.old) }
{
    either_text(alloc, planned(alloc, conn))
}

/// What one line comes to over tables that were just opened: `call,judge,LINE` is the verdict on a command or the answer to a question, and
/// `call,plan` the plan of the open run. Every other line is a call of a layer below an agency, or is told to one.
pub fn line_over<S: Alter>(alloc: Global, mut conn: Connection<S>, line: &str) -> Lived<S>
    requires { HasCleanDisk (state S.Store conn) → IsResting (state S.Store conn) }
{
    match (line, line.strip_prefix("call,judge,")) {
        (_, Some(words)) => (judge_text(alloc, &mut conn, words), conn),
        ("call,plan", None) => (planned_text(alloc, &mut conn), conn),
        _ => told_over(alloc, conn, line),
    }
}
