//! Agencies on disks in memory: what stands there in the end, and after a failure of either disk.

use crate::disk_work::{
    Finding, Told, Work, acknowledged, found, found_in_turn, is_failure, text_on, told_on,
};
use crate::trial_disks::{Failure, Full, TrialDisk};
use dh_agency_test_kit::{all_rows, compare_tables, in_memory, reply_line, table_of, tables_of};
use dh_lives::{Measures, Stopping, Which, copy_of, no_files};
use dh_test_kit::{Block, Tally, compare, parted, script};
use sqlite::{Connection, Files};
use sqlite_disk::Crash;
use std::alloc::{AllocError, Global};
use std::io;

// The tables of a file without any.
fn no_tables(alloc: Global) -> Result<String, AllocError> {
    let mut conn = Connection::open_in_memory(alloc)?;
    let tables = all_rows(alloc, &mut conn);
    drop(conn);
    tables
}

/// The tables of an agency in memory that was told the lines, and then to carry out what is left of an open run where they are
/// recovered.
pub fn tables_after(alloc: Global, lines: &[String], work: Work<'_>) -> Result<String, AllocError> {
    let Some(mut agency) = in_memory(alloc)? else {
        return "no agency".to_string(alloc);
    };
    let acknowledged = acknowledged(alloc, &mut agency, lines);
    if matches!(work, Work::Recover) {
        let _reply = reply_line(alloc, &mut agency, "post,1000000");
    }
    let tables = tables_of(alloc, agency);
    acknowledged?;
    tables
}

// The tables before each step and after the last.
fn tables_by_step(
    alloc: Global,
    lines: &[String],
    work: Work<'_>,
) -> Result<Vec<String>, AllocError> {
    let mut tables = Vec::new(alloc);
    tables.push(no_tables(alloc)?)?;
    for count in 0..=lines.len() {
        tables.push(tables_after(alloc, &lines[..count], work)?)?;
    }
    Ok(tables)
}

// Whether all steps were acknowledged.
fn is_whole(told: Told, lines: &[String]) -> bool {
    matches!(told, Told::Acknowledged(count) if count > lines.len())
}

// What is promised of the tables that are found after a failure.
#[derive(Clone, Copy)]
struct Promise<'a> {
    told: Told,
    // The tables before each step and after the last.
    tables: &'a [String],
}

// The tables found, where they are not as promised.
fn kept<'a>(promise: Promise<'_>, found: &'a str) -> &'a str {
    if is_kept(promise, found) {
        return "kept";
    }
    found
}

// Whether the tables found are those after what was acknowledged, or after the step that the failure cut.
fn is_kept(promise: Promise<'_>, found: &str) -> bool {
    let Told::Acknowledged(count) = promise.told else {
        return false;
    };
    for may_be in promise.tables.iter().skip(count).take(2) {
        if may_be.as_str() == found {
            return true;
        }
    }
    // Before there is an agency there is nothing to recover.
    count == 0 && found == "fault 22"
}

// What the lines are played for.
#[derive(Clone, Copy)]
struct Trial<'a> {
    lines: &'a [String],
    // The tables before each step and after the last.
    tables: &'a [String],
    work: Work<'a>,
    // From which acknowledged step on a recovery is made to fail too.
    twice_from: usize,
}

// More than either disk is asked to do for the lines.
const MOST: u64 = 1000;

// Of this many measures of a recovery that follow each other one is tried, another behind each first failure.
const STRIDE: u64 = 11;

// A recovery on the disks after a power cut, which fail again.
fn tried_again<D: TrialDisk>(
    alloc: Global,
    left: &mut Files<D>,
    measures: Measures,
) -> io::Result<(Result<String, AllocError>, Files<D>)> {
    left.log.crash();
    left.db.crash();
    let files = copy_of(alloc, left, measures)?;
    Ok(text_on(alloc, files, Work::Recover))
}

// What is left after a failure is recovered on disks that fail again, and then to the end; and whether the first of these was finished.
fn play_second_failure<D: TrialDisk>(
    rt: &HostRuntime,
    tally: &mut Tally,
    failure: Failure<'_>,
    promise: Promise<'_>,
    left: &mut Files<D>,
    last: &mut Option<Finding>,
) -> io::Result<bool> {
    let (answer, again) = tried_again(rt.alloc(), left, failure.measures())?;
    let tables = found_in_turn(rt.alloc(), again, Work::Recover, last)?;
    let answer = answer?;
    let is_ended = is_kept(promise, answer.as_str());
    let got = if is_failure::<D>(rt.alloc(), answer.as_str())? {
        "kept"
    } else {
        kept(promise, answer.as_str())
    };
    failure.compare::<D>(rt, tally, got, "kept")?;
    failure.compare::<D>(rt, tally, kept(promise, tables.as_str()), "kept")?;
    Ok(is_ended)
}

fn play_second_failures<D: TrialDisk>(
    rt: &HostRuntime,
    tally: &mut Tally,
    which: Which,
    first: u64,
    promise: Promise<'_>,
    left: &mut Files<D>,
    last: &mut Option<Finding>,
) -> io::Result<()> {
    for turn in 0..MOST {
        let measure = turn.saturating_mul(STRIDE).saturating_add(first % STRIDE);
        let failure = Failure {
            done: "a recovery",
            which,
            measure,
        };
        if play_second_failure(rt, tally, failure, promise, left, last)? {
            return Ok(());
        }
    }
    compare(rt, tally, "a recovery on a disk", "not ended", "ended")
}

// Whether a recovery is made to fail too.
fn fails_twice(told: Told, trial: Trial<'_>) -> bool {
    matches!(told, Told::Acknowledged(count) if count >= trial.twice_from && count <= trial.lines.len())
}

// Tells the lines to an agency on disks of which one fails past the measure, and whether it did before they ended.
fn play_failure<D: TrialDisk>(
    rt: &HostRuntime,
    tally: &mut Tally,
    which: Which,
    measure: u64,
    trial: Trial<'_>,
    last: &mut Option<Finding>,
) -> io::Result<bool> {
    let failure = Failure {
        done: "the lines",
        which,
        measure,
    };
    let files = no_files::<D>(rt.alloc(), failure.measures())?;
    let (told, mut left) = told_on(rt.alloc(), files, trial.lines);
    let promise = Promise {
        told,
        tables: trial.tables,
    };
    if fails_twice(told, trial) {
        play_second_failures(rt, tally, which, measure, promise, &mut left, last)?;
    }
    let tables = found_in_turn(rt.alloc(), left, trial.work, last)?;
    failure.compare::<D>(rt, tally, kept(promise, tables.as_str()), "kept")?;
    Ok(!is_whole(told, trial.lines))
}

// The disk fails at each measure in turn.
fn play_failures<D: TrialDisk>(
    rt: &HostRuntime,
    tally: &mut Tally,
    which: Which,
    trial: Trial<'_>,
) -> io::Result<()> {
    let mut last = None;
    for measure in 0..MOST {
        if !play_failure::<D>(rt, tally, which, measure, trial, &mut last)? {
            return Ok(());
        }
    }
    compare(rt, tally, "all lines on a disk", "not told", "told")
}

/// The lines that are told.
pub fn told_of(alloc: Global, lines: &[String]) -> Result<Vec<String>, AllocError> {
    let mut told = Vec::new(alloc);
    for line in lines {
        let (words, _) = parted(line.as_str());
        if table_of(words).is_none() {
            told.push(line.as_str().to_string(alloc)?)?;
        }
    }
    Ok(told)
}

// The lines told to an agency on disks that do not fail, and the tables that a power cut then leaves.
fn play_whole<D: TrialDisk>(
    rt: &HostRuntime,
    tally: &mut Tally,
    block: &Block,
    lines: &[String],
) -> io::Result<()> {
    let files = no_files::<D>(rt.alloc(), Measures::NO_END)?;
    let (told, left) = told_on(rt.alloc(), files, lines);
    let tables = found(rt.alloc(), left, Work::Look)?;
    let got = if is_whole(told, lines) {
        "told"
    } else {
        "not told"
    };
    compare(rt, tally, block.name.as_str(), got, "told")?;
    compare_tables(rt, tally, block, tables.as_str())
}

/// What is tried of the lines of a block.
#[derive(Clone, Copy)]
pub enum Failures {
    /// No disk fails.
    None,
    /// Each disk fails at each measure in turn, and the file is looked at.
    Once,
    /// It does, and the file is recovered; and where it failed in one of the last two lines, a recovery is made to fail too, at every eleventh measure.
    Twice,
}

// The lines told to agencies on disks of which one fails at each measure in turn.
fn play_cut(
    rt: &HostRuntime,
    tally: &mut Tally,
    lines: &[String],
    work: Work<'_>,
) -> io::Result<()> {
    let tables = tables_by_step(rt.alloc(), lines, work)?;
    let trial = Trial {
        lines,
        tables: &tables,
        work,
        twice_from: if matches!(work, Work::Recover) {
            lines.len().saturating_sub(1)
        } else {
            usize::MAX
        },
    };
    play_failures::<Stopping>(rt, tally, Which::Journal, trial)?;
    play_failures::<Stopping>(rt, tally, Which::Database, trial)?;
    play_failures::<Full>(rt, tally, Which::Journal, trial)?;
    play_failures::<Full>(rt, tally, Which::Database, trial)
}

/// Tells the lines of each block to an agency on disks, and compares what a power cut leaves of its tables in the end; and
/// what it leaves where a disk fails, as `Failures` says.
pub fn play(rt: &HostRuntime, tally: &mut Tally, text: &str, failures: Failures) -> io::Result<()> {
    for block in &script(rt.alloc(), text)? {
        let lines = told_of(rt.alloc(), &block.all)?;
        play_whole::<Stopping>(rt, tally, block, &lines)?;
        match failures {
            Failures::None => {}
            Failures::Once => play_cut(rt, tally, &lines, Work::Look)?,
            Failures::Twice => play_cut(rt, tally, &lines, Work::Recover)?,
        }
    }
    Ok(())
}
