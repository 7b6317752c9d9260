//! Calls of the layers below an agency, and lines told to one, over tables that were just opened.

ghost use Rattle.std.specs.Prelude.{◌≡◌, length};
ghost use Rattle.sqlite.specs.State.{HasCleanDisk};
ghost use Rattle.sqlite.specs.Held.{state};
ghost use Rattle.dh_model.specs.declared.rows.Verdict.TheVariants as verdict;
ghost use Rattle.dh_model.specs.Verdicts.{verdict_on};
ghost use Rattle.dh_leases.specs.Plans.{IsPlanOf};
ghost use Rattle.dh_schema.specs.Store.{IsReady, tables};
ghost use Rattle.dh_runs.specs.Taking.{HasVersion, IsResting};

use crate::batches::batch_text;
use crate::lives::{Lived, problem_text, told_anew};
use crate::lookups::find_text;
use crate::tables::{books_loaded_text, install_text, load_text, version_text};
use dh_books::Books;
use dh_leases::Plan;
use dh_model::{Change, Verdict};
use dh_runs::{Problem, check, close_run, close_run_1, open_run, plan_run};
use dh_schema::load_1;
use dh_store::ask;
use dh_test_kit::{january, request};
use dh_types::{Command, Reply, Request, RunSum, Version};
use sqlite::{Alter, Connection};
use std::alloc::{AllocError, Global};

// Opens the run, where the command is an opening, which is accepted; and whether it is one.
fn open_accepted<S: Alter>(
    alloc: Global,
    conn: &mut Connection<S>,
    command: &Command,
    rows: &Change,
) -> Result<bool, Problem>
    requires ready { HasCleanDisk (state S.Store conn.old) → IsReady (state S.Store conn.old) }
    requires verdict { HasCleanDisk (state S.Store conn.old)
        → verdict_on (tables (state S.Store conn.old)).books (tables (state S.Store conn.old)).open_run command.now ≡ verdict.Change rows.now }
{
    match command {
        Command::Open(order) => {
            open_run(alloc, conn, rows)?;
            Ok(true)
        }
        _ => Ok(false),
    }
}

// Opens the run, where that is accepted, and whether it is.
fn open_asked<S: Alter>(
    alloc: Global,
    conn: &mut Connection<S>,
    command: &Command,
) -> Result<bool, Problem>
    requires { HasCleanDisk (state S.Store conn.old) → IsReady (state S.Store conn.old) }
{
    match ask(alloc, conn, command)? {
        Verdict::Change(rows) => {
            let done = open_accepted(alloc, conn, command, &rows);
            drop(rows);
            done
        }
        Verdict::Already(_) | Verdict::Refused(_) => Ok(false),
    }
}

fn opened<S: Alter>(
    alloc: Global,
    conn: &mut Connection<S>,
    command: &Command,
) -> Result<bool, Problem>
    requires { HasCleanDisk (state S.Store conn.old) → IsResting (state S.Store conn.old) }
{
    check(alloc, conn, Version::Second)?;
    open_asked(alloc, conn, command)
}

// Closes the open run that the plan is of, which has no batch, over tables of this version.
fn close_planned<S: Alter>(
    alloc: Global,
    conn: &mut Connection<S>,
    version: Version,
    plan: &Plan,
) -> Result<RunSum, Problem>
    requires version { HasCleanDisk (state S.Store conn.old) → HasVersion version (state S.Store conn.old) }
    requires ready { HasCleanDisk (state S.Store conn.old) → IsReady (state S.Store conn.old) }
    requires planned { HasCleanDisk (state S.Store conn.old) → IsPlanOf plan.now (tables (state S.Store conn.old)) }
    requires none_left { length plan.now.batches.items ≡ 0 }
{
    match version {
        Version::First => Ok(close_run_1(alloc, conn)?),
        Version::Second => Ok(close_run(alloc, conn)?),
    }
}

// Closes the run, where one is open that lacks no batch.
fn close_if_done<S: Alter>(
    alloc: Global,
    conn: &mut Connection<S>,
    version: Version,
) -> Result<Option<RunSum>, Problem>
    requires ready { HasCleanDisk (state S.Store conn.old) → IsReady (state S.Store conn.old) }
    requires version { HasCleanDisk (state S.Store conn.old) → HasVersion version (state S.Store conn.old) }
{
    let Some(plan) = plan_run(alloc, conn)? else {
        return Ok(None);
    };
    if plan.batches.len() > 0 {
        return Ok(None);
    }
    Ok(Some(close_planned(alloc, conn, version, &plan)?))
}

fn closed<S: Alter>(
    alloc: Global,
    conn: &mut Connection<S>,
    version: Version,
) -> Result<Option<RunSum>, Problem>
    requires { HasCleanDisk (state S.Store conn.old) → IsResting (state S.Store conn.old) }
{
    check(alloc, conn, version)?;
    close_if_done(alloc, conn, version)
}

fn opening_text<S: Alter>(
    alloc: Global,
    conn: &mut Connection<S>,
    line: &str,
) -> Result<String, AllocError>
    requires { HasCleanDisk (state S.Store conn.old) → IsResting (state S.Store conn.old) }
{
    let Ok(Request::Command(command)) = request(alloc, line) else {
        return "no call".to_string(alloc);
    };
    match opened(alloc, conn, &command) {
        Ok(true) => "opened".to_string(alloc),
        Ok(false) => "not accepted".to_string(alloc),
        Err(problem) => problem_text(alloc, problem),
    }
}

fn closing_text<S: Alter>(
    alloc: Global,
    conn: &mut Connection<S>,
    version: Version,
) -> Result<String, AllocError>
    requires { HasCleanDisk (state S.Store conn.old) → IsResting (state S.Store conn.old) }
{
    match closed(alloc, conn, version) {
        Ok(Some(sum)) => format!(in alloc; "{}", Reply::Posted(sum)),
        Ok(None) => "no run at its end".to_string(alloc),
        Err(problem) => problem_text(alloc, problem),
    }
}

fn loaded_first<S: Alter>(alloc: Global, conn: &mut Connection<S>) -> Result<Books, Problem>
    requires { HasCleanDisk (state S.Store conn.old) → IsResting (state S.Store conn.old) }
{
    check(alloc, conn, Version::First)?;
    Ok(load_1(alloc, conn)?)
}

// The books of tables of the first version.
fn first_load_text<S: Alter>(alloc: Global, conn: &mut Connection<S>) -> Result<String, AllocError>
    requires { HasCleanDisk (state S.Store conn.old) → IsResting (state S.Store conn.old) }
{
    match loaded_first(alloc, conn) {
        Ok(books) => books_loaded_text(alloc, &books),
        Err(problem) => problem_text(alloc, problem),
    }
}

fn call_text<S: Alter>(
    alloc: Global,
    conn: &mut Connection<S>,
    call: &str,
) -> Result<String, AllocError>
    requires { HasCleanDisk (state S.Store conn.old) → IsResting (state S.Store conn.old) }
{
    let (kind, words) = call.split_once(',').unwrap_or((call, ""));
    match kind {
        "find" => find_text(alloc, conn, words),
        "install" => install_text(alloc, conn, january()),
        "version" => version_text(alloc, conn),
        "load" => load_text(alloc, conn),
        "load_1" => first_load_text(alloc, conn),
        "batch" => batch_text(alloc, conn, Version::Second),
        "batch_1" => batch_text(alloc, conn, Version::First),
        "close" => closing_text(alloc, conn, Version::Second),
        "close_1" => closing_text(alloc, conn, Version::First),
        _ => opening_text(alloc, conn, call),
    }
}

/// What one line comes to over tables that were just opened. Behind `call,` stands a call of the layers below an agency: `install`,
/// `version`, `load`, `find,KIND,KEY`, an opening's line, `batch` or `close`; `load_1`, `batch_1` and `close_1` are over tables of the first
/// version.
pub fn line_over<S: Alter>(alloc: Global, mut conn: Connection<S>, line: &str) -> Lived<S>
    requires { HasCleanDisk (state S.Store conn) → IsResting (state S.Store conn) }
{
    match line.strip_prefix("call,") {
        Some(call) => (call_text(alloc, &mut conn, call), conn),
        None => told_anew(alloc, conn, line),
    }
}
