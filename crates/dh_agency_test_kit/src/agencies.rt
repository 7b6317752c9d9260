//! Agencies that are told lines.

use crate::rows::all_rows;
use dh_agency::{Agency, NotOpened, create};
use dh_runs::RunState;
use dh_test_kit::{Unreadable, answer_text, january, request};
use dh_types::{Command, Fault, Question, Reply, Request};
use sqlite::{Alter, Connection, MemStore};
use std::alloc::{AllocError, Global};

/// An agency in memory with empty books, where there is one.
pub fn in_memory(alloc: Global) -> Result<Option<Agency<MemStore>>, AllocError> {
    match create(alloc, Connection::open_in_memory(alloc)?, january()) {
        Ok(agency) => Ok(Some(agency)),
        Err(NotOpened { cause: _, conn: _ }) => Ok(None),
    }
}

/// The rows of the tables that the agency leaves.
pub fn tables_of<S: Alter + Drop>(alloc: Global, agency: Agency<S>) -> Result<String, AllocError> {
    let mut conn = agency.into_store();
    let tables = all_rows(alloc, &mut conn);
    drop(conn);
    tables
}

/// The text of what a command is answered.
pub(crate) fn reply_text(alloc: Global, reply: Result<Reply, Fault>) -> Result<String, AllocError> {
    match reply {
        Ok(reply) => format!(in alloc; "{reply}"),
        Err(fault) => format!(in alloc; "{fault}"),
    }
}

fn replied<S: Alter>(
    alloc: Global,
    agency: &mut Agency<S>,
    command: &Command,
) -> Result<String, AllocError> {
    reply_text(alloc, agency.step(alloc, command))
}

fn shown<S: Alter>(
    alloc: Global,
    agency: &mut Agency<S>,
    question: &Question,
) -> Result<String, AllocError> {
    match agency.show(alloc, question) {
        Ok(answer) => answer_text(alloc, &answer),
        Err(fault) => format!(in alloc; "{fault}"),
    }
}

fn answered<S: Alter>(
    alloc: Global,
    agency: &mut Agency<S>,
    request: &Request,
) -> Result<String, AllocError> {
    match request {
        Request::Command(command) => replied(alloc, agency, command),
        Request::Question(question) => shown(alloc, agency, question),
    }
}

// What a run comes to that is resumed, in a reply's words.
fn resumed<S: Alter>(
    alloc: Global,
    agency: &mut Agency<S>,
    most: u32,
) -> Result<String, AllocError> {
    match agency.resume(alloc, most) {
        Ok(RunState::NoRun) => "no run".to_string(alloc),
        Ok(RunState::Part(progress)) => format!(in alloc; "{}", Reply::Progress(progress)),
        Ok(RunState::Posted(sum)) => format!(in alloc; "{}", Reply::Posted(sum)),
        Err(fault) => format!(in alloc; "{fault}"),
    }
}

/// What the agency answers to the line: its reply to a command, and its answer to a question. Behind `resume,N` the open run is resumed.
pub fn reply_line<S: Alter>(
    alloc: Global,
    agency: &mut Agency<S>,
    line: &str,
) -> Result<String, AllocError> {
    if let Some(most) = line.strip_prefix("resume,") {
        return resumed(alloc, agency, most.parse().unwrap_or(0));
    }
    match request(alloc, line) {
        Ok(request) => answered(alloc, agency, &request),
        Err(Unreadable) => "not read".to_string(alloc),
    }
}
