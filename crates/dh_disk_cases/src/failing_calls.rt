//! One call over files of which a disk fails. The lines of a block are told, each to files that are opened anew, on disks that do not fail;
//! and the last is told once more for each measure of each disk, to files as they were before it.

use crate::disk_work::{Finding, Work, found, found_in_turn, is_failure, text_on};
use crate::disks::told_of;
use crate::trial_disks::{Failure, Full, TrialDisk};
use dh_agency_test_kit::{compare_tables, table_of};
use dh_lives::{Measures, Stopping, Which, copy_of, no_files};
use dh_test_kit::{Block, Tally, compare, parted, script};
use sqlite::Files;
use std::alloc::{AllocError, Global};
use std::io;

// The lines before those that are compared.
fn tell_before<D: TrialDisk>(
    alloc: Global,
    mut files: Files<D>,
    lines: &[String],
) -> Result<Files<D>, AllocError> {
    for line in lines {
        let (words, _) = parted(line.as_str());
        if table_of(words).is_none() {
            let (answer, left) = text_on(alloc, files, Work::Line(words));
            files = left;
            let _answer = answer?;
        }
    }
    Ok(files)
}

fn tell_each<D: TrialDisk>(
    rt: &HostRuntime,
    tally: &mut Tally,
    mut files: Files<D>,
    lines: &[String],
) -> io::Result<Files<D>> {
    for line in lines {
        let (words, want) = parted(line.as_str());
        let (answer, left) = text_on(rt.alloc(), files, Work::Line(words));
        files = left;
        compare(rt, tally, words, answer?.as_str(), want)?;
    }
    Ok(files)
}

// The call that is tried.
#[derive(Clone, Copy)]
struct Trial<'a> {
    line: &'a str,
    want: &'a str,
    // How what is left is found, and what that is before the call and after it.
    work: Work<'a>,
    before: &'a str,
    after: &'a str,
}

// The tables found, where they are neither those before the call nor those after it; where it was answered, those after it.
fn tables_kept<'a>(trial: Trial<'a>, answer: &str, tables: &'a str) -> &'a str {
    if tables == trial.after || (tables == trial.before && answer != trial.want) {
        return "kept";
    }
    tables
}

fn has_failed<D: TrialDisk>(files: &mut Files<D>, which: Which) -> bool {
    match which {
        Which::Journal => files.log.is_at_its_end(),
        Which::Database => files.db.is_at_its_end(),
    }
}

// The call on disks of which one fails past the measure; and whether it did.
fn play_failure<D: TrialDisk>(
    rt: &HostRuntime,
    tally: &mut Tally,
    begun: &Files<D>,
    which: Which,
    measure: u64,
    trial: Trial<'_>,
    last: &mut Option<Finding>,
) -> io::Result<bool> {
    let failure = Failure {
        done: trial.line,
        which,
        measure,
    };
    let files = copy_of(rt.alloc(), begun, failure.measures())?;
    let (answer, mut left) = text_on(rt.alloc(), files, Work::Line(trial.line));
    let has_failed = has_failed(&mut left, which);
    let tables = found_in_turn(rt.alloc(), left, trial.work, last)?;
    let answer = answer?;
    let got = if has_failed && is_failure::<D>(rt.alloc(), answer.as_str())? {
        trial.want
    } else {
        answer.as_str()
    };
    failure.compare::<D>(rt, tally, got, trial.want)?;
    let got = tables_kept(trial, answer.as_str(), tables.as_str());
    failure.compare::<D>(rt, tally, got, "kept")?;
    Ok(has_failed)
}

// More than either disk is asked to do for a call.
const MOST: u64 = 1000;

// The disk fails at each measure in turn.
fn play_failures<D: TrialDisk>(
    rt: &HostRuntime,
    tally: &mut Tally,
    begun: &Files<D>,
    which: Which,
    trial: Trial<'_>,
) -> io::Result<()> {
    let mut last = None;
    for measure in 0..MOST {
        if !play_failure(rt, tally, begun, which, measure, trial, &mut last)? {
            return Ok(());
        }
    }
    compare(rt, tally, trial.line, "fails at each measure", trial.want)
}

// The call on disks that do not fail, and then on disks that do.
fn play_call<D: TrialDisk>(
    rt: &HostRuntime,
    tally: &mut Tally,
    block: &Block,
    begun: &Files<D>,
    line: &str,
    work: Work<'_>,
) -> io::Result<()> {
    let (line, want) = parted(line);
    let before = found(
        rt.alloc(),
        copy_of(rt.alloc(), begun, Measures::NO_END)?,
        work,
    )?;
    let files = copy_of(rt.alloc(), begun, Measures::NO_END)?;
    let (answer, left) = text_on(rt.alloc(), files, Work::Line(line));
    let after = found(rt.alloc(), left, work)?;
    compare(rt, tally, line, answer?.as_str(), want)?;
    compare_tables(rt, tally, block, after.as_str())?;
    let trial = Trial {
        line,
        want,
        work,
        before: before.as_str(),
        after: after.as_str(),
    };
    play_failures(rt, tally, begun, Which::Journal, trial)?;
    play_failures(rt, tally, begun, Which::Database, trial)
}

fn play_block<D: TrialDisk>(
    rt: &HostRuntime,
    tally: &mut Tally,
    block: &Block,
    work: Work<'_>,
) -> io::Result<()> {
    let mut lines = told_of(rt.alloc(), block.lines())?;
    let Some(last) = lines.pop() else {
        return compare(rt, tally, block.name.as_str(), "no line", "lines");
    };
    let files = no_files::<D>(rt.alloc(), Measures::NO_END)?;
    let files = tell_before(rt.alloc(), files, block.before())?;
    let begun = tell_each(rt, tally, files, &lines)?;
    play_call(rt, tally, block, &begun, last.as_str(), work)
}

/// Plays each block on disks that stop, and on full ones. What is left is found by the work: it is looked at, or recovered
/// first, or migrated.
pub fn play(rt: &HostRuntime, tally: &mut Tally, text: &str, work: Work<'_>) -> io::Result<()> {
    for block in &script(rt.alloc(), text)? {
        play_block::<Stopping>(rt, tally, block, work)?;
        play_block::<Full>(rt, tally, block, work)?;
    }
    Ok(())
}
