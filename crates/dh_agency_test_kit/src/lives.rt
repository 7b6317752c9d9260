//! Scripts of one store whose power is cut before each line and behind each command and recovery: it is opened anew, and an agency
//! takes its tables as they are, or recovers them. A line `sql,STATEMENT` is what another program does to the store. At `later tables` it
//! makes the tables of the second version of those of the first, and at `earlier tables` those of the first of those of the second.

ghost use Rattle.sqlite.specs.State.{HasCleanDisk};
ghost use Rattle.sqlite.specs.Held.{state};
ghost use Rattle.dh_runs.specs.Taking.{IsResting};

use crate::agencies::{in_memory, reply_line, reply_text};
use crate::batches::batch_text;
use crate::rows::all_rows;
use crate::scripts::{compare_tables, table_of};
use dh_agency::{Agency, NotOpened, Problem, attach, migrate, recover, recover_1};
use dh_ddl::texts::{
    CHARGE_MONTH, DROP_LEASE_CLIENT, DROP_LEASE_PROPERTY, DROP_PROPERTY_STAFF, DROP_RECEIPT_LEASE,
    DROP_VIEWING_PROPERTY, FIRST_TO_SECOND, LEASE_CLIENT, LEASE_PROPERTY, PROPERTY_STAFF,
    RECEIPT_LEASE, VIEWING_PROPERTY,
};
use dh_lives::crashes::{next_life, recovery_and_crash, step_and_crash};
use dh_test_kit::{Block, Tally, compare, parted, request, script};
use dh_types::{Command, Request, Version};
use sqlite::{Alter, Connection};
use sqlite_trees::store::Reopen;
use std::alloc::{AllocError, Global};
use std::io;

/// The text of why tables are not taken.
pub fn problem_text(alloc: Global, problem: Problem) -> Result<String, AllocError> {
    match problem {
        Problem::Refused(refusal) => format!(in alloc; "{refusal}"),
        Problem::Fault(fault) => format!(in alloc; "{}", fault.fault()),
    }
}

/// What a line came to, and the store.
pub type Lived<S> = (Result<String, AllocError>, Connection<S>);

// What came of taking the tables, and the store.
fn given_up<S: Alter>(
    alloc: Global,
    opened: Result<Agency<S>, NotOpened<Problem, S>>,
    done: &str,
) -> Lived<S> {
    match opened {
        Ok(agency) => (done.to_string(alloc), agency.into_store()),
        Err(NotOpened { cause, conn }) => (problem_text(alloc, cause), conn),
    }
}

// What came of the recovery of tables of the first version, and the store.
fn given_back<S: Alter>(
    alloc: Global,
    recovered: Result<Connection<S>, NotOpened<Problem, S>>,
) -> Lived<S> {
    match recovered {
        Ok(conn) => ("recovered".to_string(alloc), conn),
        Err(NotOpened { cause, conn }) => (problem_text(alloc, cause), conn),
    }
}

// What an agency answers to the line that takes the tables for it alone.
fn told_once<S: Alter>(
    alloc: Global,
    opened: Result<Agency<S>, NotOpened<Problem, S>>,
    line: &str,
) -> Lived<S> {
    match opened {
        Ok(mut agency) => {
            let answer = reply_line(alloc, &mut agency, line);
            (answer, agency.into_store())
        }
        Err(NotOpened { cause, conn }) => (problem_text(alloc, cause), conn),
    }
}

// Runs each of these statements, as another program would.
fn runs_each<S: Alter>(conn: &mut Connection<S>, statements: &[&str]) -> bool {
    for statement in statements {
        if conn.execute(statement, &[]).is_err() {
            return false;
        }
    }
    true
}

/// The texts that make the tables of the first version of those of the second. The indexes for look-ups are taken away, and then the later
/// tables; those of the first version are made anew behind its tables.
pub static SECOND_TO_FIRST: [&str; 16] = [
    DROP_VIEWING_PROPERTY,
    DROP_RECEIPT_LEASE,
    DROP_LEASE_CLIENT,
    DROP_LEASE_PROPERTY,
    "DROP INDEX property_branch",
    "DROP INDEX property_owner",
    DROP_PROPERTY_STAFF,
    "DROP TABLE ending",
    "DROP TABLE part_fee",
    "DROP TABLE branch_fee",
    PROPERTY_STAFF,
    LEASE_PROPERTY,
    LEASE_CLIENT,
    CHARGE_MONTH,
    RECEIPT_LEASE,
    VIEWING_PROPERTY,
];

// What these statements of another program come to, and the store.
fn edited<S: Alter>(alloc: Global, mut conn: Connection<S>, statements: &[&str]) -> Lived<S> {
    let is_done = runs_each(&mut conn, statements);
    let done = if is_done { "done" } else { "not done" };
    (done.to_string(alloc), conn)
}

/// One line over tables that were just opened: `attach` and `recover` say what they are, and so do `recover_1` and `migrate`, which are
/// for tables of the first version. `batch` is the next batch of the open run, posted without an agency, and for every other line an
/// agency takes the tables as they are.
pub(crate) fn told_anew<S: Alter>(alloc: Global, mut conn: Connection<S>, line: &str) -> Lived<S>
    requires { HasCleanDisk (state S.Store conn) → IsResting (state S.Store conn) }
{
    match (line, line.strip_prefix("sql,")) {
        (_, Some(statement)) => edited(alloc, conn, &[statement]),
        ("later tables", None) => edited(alloc, conn, &FIRST_TO_SECOND),
        ("earlier tables", None) => edited(alloc, conn, &SECOND_TO_FIRST),
        ("recover", None) => given_up(alloc, recover(alloc, conn), "recovered"),
        ("attach", None) => given_up(alloc, attach(alloc, conn), "attached"),
        ("recover_1", None) => given_back(alloc, recover_1(alloc, conn)),
        ("migrate", None) => given_up(alloc, migrate(alloc, conn), "migrated"),
        ("batch", None) => (batch_text(alloc, &mut conn, Version::Second), conn),
        _ => told_once(alloc, attach(alloc, conn), line),
    }
}

/// One line over tables that are opened anew for it. None where they can't be opened.
pub fn told_next<S: Alter + Reopen + Drop>(
    alloc: Global,
    conn: Connection<S>,
    line: &str,
) -> Option<Lived<S>> {
    let conn = next_life(alloc, conn)?;
    Some(told_anew(alloc, conn, line))
}

// The command, told to an agency that takes the tables for it alone, and a power cut.
fn stepped<S: Alter + Reopen + Drop>(
    alloc: Global,
    conn: Connection<S>,
    command: &Command,
) -> Option<Lived<S>>
    requires { HasCleanDisk (state S.Store conn) → IsResting (state S.Store conn) }
{
    match attach(alloc, conn) {
        Ok(agency) => {
            let (reply, again) = step_and_crash(alloc, agency, command)?;
            Some((reply_text(alloc, reply), again))
        }
        Err(NotOpened { cause, conn }) => Some((problem_text(alloc, cause), conn)),
    }
}

// A recovery, and a power cut.
fn recovered<S: Alter + Reopen + Drop>(alloc: Global, conn: Connection<S>) -> Option<Lived<S>>
    requires { HasCleanDisk (state S.Store conn) → IsResting (state S.Store conn) }
{
    let (done, again) = recovery_and_crash(alloc, conn)?;
    let text = match done {
        Ok(()) => "recovered".to_string(alloc),
        Err(problem) => problem_text(alloc, problem),
    };
    Some((text, again))
}

/// How a line is told to a store.
pub trait Telling {
    /// What the line comes to over the store, before which the power was cut. `None` where it can't be opened anew.
    fn live<S: Alter + Reopen + Drop>(
        alloc: Global,
        conn: Connection<S>,
        line: &str,
    ) -> Option<Lived<S>>;
}

// Lines are told to an agency that takes the tables anew.
struct ToAnAgency;

impl Telling for ToAnAgency {
    fn live<S: Alter + Reopen + Drop>(
        alloc: Global,
        conn: Connection<S>,
        line: &str,
    ) -> Option<Lived<S>> {
        let conn = next_life(alloc, conn)?;
        if line == "recover" {
            return recovered(alloc, conn);
        }
        match request(alloc, line) {
            Ok(Request::Command(command)) => stepped(alloc, conn, &command),
            _ => Some(told_anew(alloc, conn, line)),
        }
    }
}

// The lines before those of the block, without a look at the replies.
fn live_before<T: Telling, S: Alter + Reopen + Drop>(
    alloc: Global,
    mut conn: Connection<S>,
    lines: &[String],
) -> Option<Connection<S>> {
    for line in lines {
        let (words, _) = parted(line.as_str());
        if table_of(words).is_none() {
            let (_answer, next) = T::live(alloc, conn, words)?;
            conn = next;
        }
    }
    Some(conn)
}

fn live_each<T: Telling, S: Alter + Reopen + Drop>(
    rt: &HostRuntime,
    tally: &mut Tally,
    mut conn: Connection<S>,
    lines: &[String],
) -> io::Result<Option<Connection<S>>> {
    for line in lines {
        let (words, want) = parted(line.as_str());
        if table_of(words).is_none() {
            let Some((answer, next)) = T::live(rt.alloc(), conn, words) else {
                return Ok(None);
            };
            conn = next;
            compare(rt, tally, words, answer?.as_str(), want)?;
        }
    }
    Ok(Some(conn))
}

/// The block, told so to this store, and the tables in the end.
pub fn play_block<T: Telling, S: Alter + Reopen + Drop>(
    rt: &HostRuntime,
    tally: &mut Tally,
    block: &Block,
    conn: Connection<S>,
) -> io::Result<()> {
    let Some(begun) = live_before::<T, S>(rt.alloc(), conn, block.before()) else {
        return compare(rt, tally, block.name.as_str(), "not opened", "opened");
    };
    let Some(mut ended) = live_each::<T, S>(rt, tally, begun, block.lines())? else {
        return compare(rt, tally, block.name.as_str(), "not opened", "opened");
    };
    let tables = all_rows(rt.alloc(), &mut ended);
    drop(ended);
    compare_tables(rt, tally, block, tables?.as_str())
}

/// The blocks of the script, each told to the tables of an agency in memory that are taken anew before each line.
pub fn play_lives(rt: &HostRuntime, tally: &mut Tally, text: &str) -> io::Result<()> {
    for block in &script(rt.alloc(), text)? {
        match in_memory(rt.alloc())? {
            Some(agency) => play_block::<ToAnAgency, _>(rt, tally, block, agency.into_store())?,
            None => compare(rt, tally, block.name.as_str(), "no agency", "an agency")?,
        }
    }
    Ok(())
}
