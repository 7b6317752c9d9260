//! What is done over files on disks in memory, and what comes of it.

ghost use Rattle.sqlite.specs.State.{HasCleanDisk};
ghost use Rattle.sqlite.specs.Held.{state};
ghost use Rattle.dh_runs.specs.Taking.{IsResting};

use crate::trial_disks::TrialDisk;
use dh_agency::{Agency, NotOpened, create, recover};
use dh_agency_test_kit::{all_rows, line_over, problem_text, reply_line};
use dh_lives::{SEED, Unopened, open_on, options};
use dh_test_kit::{january, parted};
use dh_types::Fault;
use sqlite::{Alter, Connection, Files, Options};
use sqlite_disk::{Crash, Disk};
use std::alloc::{AllocError, Global};

/// What an agency was told before it stopped.
#[derive(Clone, Copy)]
pub enum Told {
    /// So many steps were acknowledged, of which the first makes the agency; after a fault nothing was.
    Acknowledged(usize),
    /// Another reply came than the one wanted, or another fault than 22 first and 23 from then on.
    Wrong,
}

/// How many steps are acknowledged, where each is answered as wanted, up to a fault.
pub fn acknowledged<S: Alter>(
    alloc: Global,
    agency: &mut Agency<S>,
    lines: &[String],
) -> Result<Told, AllocError> {
    let mut count: usize = 1;
    let mut is_stopped = false;
    for line in lines {
        let (words, want) = parted(line.as_str());
        let reply = reply_line(alloc, agency, words)?;
        match reply.as_str() {
            "fault 23" if is_stopped => {}
            "fault 22" if !is_stopped => is_stopped = true,
            text if text == want && !is_stopped => count = count.saturating_add(1),
            _ => return Ok(Told::Wrong),
        }
    }
    let shown = reply_line(alloc, agency, "show,branches")?;
    if (shown.as_str() == "fault 23") == is_stopped {
        return Ok(Told::Acknowledged(count));
    }
    Ok(Told::Wrong)
}

// Tells the lines to a new agency over the store.
fn told_over<S: Alter>(
    alloc: Global,
    conn: Connection<S>,
    lines: &[String],
) -> (Told, Connection<S>) {
    match create(alloc, conn, january()) {
        Ok(mut agency) => {
            let told = acknowledged(alloc, &mut agency, lines).unwrap_or(Told::Wrong);
            (told, agency.into_store())
        }
        Err(NotOpened { conn, cause }) => match cause {
            Fault::Store => (Told::Acknowledged(0), conn),
            Fault::Memory | Fault::Stopped => (Told::Wrong, conn),
        },
    }
}

/// What is done over files that were opened.
#[derive(Clone, Copy)]
pub enum Work<'a> {
    /// An agency is made, and told the lines.
    Tell(&'a [String]),
    /// The line is told, as among the calls of each layer.
    Line(&'a str),
    /// The tables are looked at.
    Look,
    /// The tables are recovered, and then looked at.
    Recover,
}

/// What came of it.
#[derive(Drop)]
pub enum Came {
    Told(Told),
    /// The answer to the line, or the tables, or why they are not recovered.
    Text(Result<String, AllocError>),
    NotOpened(Unopened),
}

fn not_opened(alloc: Global, why: Unopened) -> Result<String, AllocError> {
    match why {
        Unopened::NotUsable => "not tried".to_string(alloc),
        Unopened::Error(error) => format!(in alloc; "not opened: {error}"),
    }
}

impl Came {
    fn text(self, alloc: Global) -> Result<String, AllocError> {
        match self {
            Came::Told(_) => "told".to_string(alloc),
            Came::Text(text) => text,
            Came::NotOpened(why) => not_opened(alloc, why),
        }
    }
}

// The tables after a recovery.
fn recovered_over<S: Alter>(
    alloc: Global,
    conn: Connection<S>,
) -> (Result<String, AllocError>, Connection<S>)
    requires { HasCleanDisk (state S.Store conn) → IsResting (state S.Store conn) }
{
    match recover(alloc, conn) {
        Ok(agency) => {
            let mut conn = agency.into_store();
            (all_rows(alloc, &mut conn), conn)
        }
        Err(NotOpened { conn, cause }) => (problem_text(alloc, cause), conn),
    }
}

fn work_over<S: Alter>(
    alloc: Global,
    mut conn: Connection<S>,
    work: Work<'_>,
) -> (Came, Connection<S>)
    requires { HasCleanDisk (state S.Store conn) → IsResting (state S.Store conn) }
{
    match work {
        Work::Tell(lines) => {
            let (told, conn) = told_over(alloc, conn, lines);
            (Came::Told(told), conn)
        }
        Work::Line(line) => {
            let (answer, conn) = line_over(alloc, conn, line);
            (Came::Text(answer), conn)
        }
        Work::Look => (Came::Text(all_rows(alloc, &mut conn)), conn),
        Work::Recover => {
            let (found, conn) = recovered_over(alloc, conn);
            (Came::Text(found), conn)
        }
    }
}

// For one line little is kept in memory, so that it reads and writes both files.
fn options_for(work: Work<'_>) -> Options {
    match work {
        Work::Line(_) => Options {
            cache_pages: 4,
            spill_pages: 4,
            checkpoint_frames: 8,
            seed: SEED,
        },
        Work::Tell(_) | Work::Look | Work::Recover => options(),
    }
}

// Opens the disks, does the work, and leaves them as they are.
fn tried<D: Disk + Drop>(alloc: Global, files: Files<D>, work: Work<'_>) -> (Came, Files<D>) {
    match open_on(alloc, files, options_for(work)) {
        Ok(conn) => {
            let (came, conn) = work_over(alloc, conn, work);
            (came, conn.into_store().close())
        }
        Err((why, left)) => (Came::NotOpened(why), left),
    }
}

/// Tells the lines to a new agency. Where no file is opened for the failure of a disk, nothing is acknowledged.
pub fn told_on<D: TrialDisk>(alloc: Global, files: Files<D>, lines: &[String]) -> (Told, Files<D>) {
    let (came, left) = tried(alloc, files, Work::Tell(lines));
    match came {
        Came::Told(told) => (told, left),
        Came::NotOpened(why) if why == Unopened::Error(D::failure()) => {
            (Told::Acknowledged(0), left)
        }
        Came::NotOpened(_) | Came::Text(_) => (Told::Wrong, left),
    }
}

/// What the work comes to, as a text.
pub fn text_on<D: TrialDisk>(
    alloc: Global,
    files: Files<D>,
    work: Work<'_>,
) -> (Result<String, AllocError>, Files<D>) {
    let (came, left) = tried(alloc, files, work);
    (came.text(alloc), left)
}

/// What a work came to over files that it found so.
#[derive(Drop)]
pub struct Finding {
    log: Vec<u8>,
    db: Vec<u8>,
    text: String,
}

impl Finding {
    // Whether the files are as those of the finding were.
    fn is_of<D: TrialDisk>(&self, files: &Files<D>) -> bool {
        self.log.as_slice() == files.log.bytes() && self.db.as_slice() == files.db.bytes()
    }

    // The finding over the files.
    fn over<D: TrialDisk>(
        alloc: Global,
        files: Files<D>,
        work: Work<'_>,
    ) -> Result<Finding, AllocError> {
        let log = Vec::from_slice(alloc, files.log.bytes())?;
        let db = Vec::from_slice(alloc, files.db.bytes())?;
        let text = found(alloc, files, work)?;
        Ok(Finding { log, db, text })
    }
}

/// The same as [`found`], with the last finding of the same work: it is not done again over files that a power cut leaves just as it left
/// the last ones, as it does those of most stops in turn.
pub fn found_in_turn<D: TrialDisk>(
    alloc: Global,
    mut files: Files<D>,
    work: Work<'_>,
    last: &mut Option<Finding>,
) -> Result<String, AllocError> {
    files.log.crash();
    files.db.crash();
    if let Some(finding) = last {
        if finding.is_of(&files) {
            return finding.text.as_str().to_string(alloc);
        }
    }
    let finding = Finding::over(alloc, files, work)?;
    let text = finding.text.as_str().to_string(alloc)?;
    *last = Some(finding);
    Ok(text)
}

/// What the work comes to after a power cut.
pub fn found<D: TrialDisk>(
    alloc: Global,
    mut files: Files<D>,
    work: Work<'_>,
) -> Result<String, AllocError> {
    files.log.crash();
    files.db.crash();
    let (text, left) = text_on(alloc, files, work);
    drop(left);
    text
}

/// Whether the text is what is answered where such a disk fails: fault 22, or why the files are not opened.
pub fn is_failure<D: TrialDisk>(alloc: Global, text: &str) -> Result<bool, AllocError> {
    let unopened = not_opened(alloc, Unopened::Error(D::failure()))?;
    Ok(text == "fault 22" || text == unopened.as_str())
}
