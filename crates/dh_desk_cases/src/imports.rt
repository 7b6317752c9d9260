//! An import that is interrupted after each of its records or within its run, and made again. A line is
//! `RECORD -> REPLY -> REPLY AGAIN -> REPLY WHILE THE RUN IS OPEN`. Behind `left open by` stand runs `WORDS < INPUT -> STATUS TEXT`, of
//! which each opens the run of the last record and does not end it.

use crate::lives::tables;
use crate::runs::{clear, compare_told, outcome, run_letting};
use dh_test_kit::{Tally, compare, parted};
use std::alloc::{AllocError, Global};
use std::io;

// Which of the replies to a record is wanted.
#[derive(Clone, Copy)]
enum Time {
    First,
    Again,
    WhileOpen,
}

impl Time {
    // The record of a line, and the reply that is wanted.
    fn reply(self, line: &str) -> (&str, &str) {
        let (record, replies) = parted(line);
        let (first, others) = parted(replies);
        let (again, while_open) = parted(others);
        match self {
            Time::First => (record, first),
            Time::Again => (record, again),
            Time::WhileOpen => (record, while_open),
        }
    }
}

// An import of records: its words with its input, and the replies that are wanted.
#[derive(Drop)]
struct Import {
    told: String,
    replies: String,
}

// The records of the lines, of which the first were imported before.
fn import_of(
    rt: &HostRuntime,
    lines: &[&str],
    before: usize,
    time: Time,
) -> Result<Import, AllocError> {
    let mut told = "batch --file F < ".to_string(rt.alloc())?;
    let mut replies = String::new(rt.alloc());
    for (at, line) in lines.iter().enumerate() {
        let time = if at < before { time } else { Time::First };
        let (record, reply) = time.reply(*line);
        told.push_str(record)?;
        told.push_str("~n")?;
        let number = at.saturating_add(1);
        replies.push_str(format!(in rt.alloc(); "{number} {reply}\n")?.as_str())?;
    }
    Ok(Import { told, replies })
}

// Imports the first records into the file, some of which were imported before.
fn play_import(
    rt: &HostRuntime,
    tally: &mut Tally,
    lines: &[&str],
    before: usize,
    time: Time,
) -> io::Result<()> {
    let import = import_of(rt, lines, before, time)?;
    let got = run_letting(rt, import.told.as_str())?;
    // While the run is open, some are refused.
    let code = if matches!(time, Time::WhileOpen) {
        1
    } else {
        0
    };
    let want = outcome(rt.alloc(), code, import.replies.as_str().as_bytes())?;
    if tally.compare(got.as_str(), want.as_str()) {
        return Ok(());
    }
    println!(rt;
        "{} records behind {before} -> {}",
        lines.len(),
        got.as_str()
    )
}

// Makes the file, and imports the first records.
fn begin(rt: &HostRuntime, tally: &mut Tally, lines: &[&str]) -> io::Result<()> {
    clear(rt);
    let made = run_letting(rt, "init --file F --first 2025-01")?;
    compare(rt, tally, "init", made.as_str(), "0 created 2025-01\n")?;
    play_import(rt, tally, lines, 0, Time::First)
}

// Imports the first records, and then all, and gives the tables.
fn play_cut(rt: &HostRuntime, tally: &mut Tally, lines: &[&str], cut: usize) -> io::Result<String> {
    begin(rt, tally, lines.get(..cut).unwrap_or(lines))?;
    play_import(rt, tally, lines, cut, Time::Again)?;
    Ok(tables(rt)?)
}

// Imports all but the last record, whose run the given one leaves open: until a recovery, an import of all changes nothing. Gives the
// tables behind an import that comes after it.
fn play_left_open(
    rt: &HostRuntime,
    tally: &mut Tally,
    lines: &[&str],
    opening: &str,
) -> io::Result<String> {
    let firsts = lines.len().saturating_sub(1);
    begin(rt, tally, lines.get(..firsts).unwrap_or(lines))?;
    let (told, _) = parted(opening);
    let got = run_letting(rt, told)?;
    compare_told(rt, tally, opening, got.as_str())?;
    let open = tables(rt)?;
    play_import(rt, tally, lines, lines.len(), Time::WhileOpen)?;
    let still_open = tables(rt)?;
    compare(rt, tally, told, still_open.as_str(), open.as_str())?;
    let recovered = run_letting(rt, "recover --file F")?;
    compare(rt, tally, told, recovered.as_str(), "0 recovered\n")?;
    play_import(rt, tally, lines, lines.len(), Time::Again)?;
    Ok(tables(rt)?)
}

fn lines_of(alloc: Global, text: &str) -> Result<Vec<&str>, AllocError> {
    let mut lines = Vec::new(alloc);
    for line in text.lines() {
        lines.push(line)?;
    }
    Ok(lines)
}

// Plays each import that a run leaves open: the tables in the end are the ones given.
fn play_openings(
    rt: &HostRuntime,
    tally: &mut Tally,
    lines: &[&str],
    openings: &str,
    whole: &str,
) -> io::Result<()> {
    for opening in openings.lines() {
        let tables = play_left_open(rt, tally, lines, opening)?;
        compare(rt, tally, opening, tables.as_str(), whole)?;
    }
    Ok(())
}

/// Plays the import for each cut: the second input is answered as wanted, and the tables in the end are those of an import that was not
/// cut.
pub fn play(rt: &HostRuntime, tally: &mut Tally, text: &str) -> io::Result<()> {
    let (records, openings) = text.split_once("\nleft open by\n").unwrap_or((text, ""));
    let lines = lines_of(rt.alloc(), records)?;
    let whole = play_cut(rt, tally, &lines, 0)?;
    for cut in 1..=lines.len() {
        let tables = play_cut(rt, tally, &lines, cut)?;
        compare(rt, tally, "the tables", tables.as_str(), whole.as_str())?;
    }
    play_openings(rt, tally, &lines, openings, whole.as_str())?;
    clear(rt);
    Ok(())
}
