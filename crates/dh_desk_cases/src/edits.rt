//! Files that another program edited. The first line is the input that makes the file. A line behind it is `STATEMENT -> STATUS TEXT`, as a recovery
//! ends once the statement ran. Of a file of the first version it is so that a migration ends.

use crate::lives::{edited, tables};
use crate::runs::{PATH, clear, compare_told, run_letting};
use dh_agency_test_kit::SECOND_TO_FIRST;
use dh_test_kit::{Tally, compare, parted, spelled};
use std::alloc::{AllocError, Global};
use std::{fs, io};

// What makes a file one of the first version.
fn to_first(alloc: Global) -> Result<String, AllocError> {
    let mut statements = String::new(alloc);
    for text in &SECOND_TO_FIRST {
        statements.push_str(text)?;
        statements.push_str("; ")?;
    }
    statements.push_str("UPDATE meta SET version = 1")?;
    Ok(statements)
}

// A file as it was closed, its tables, and the words of the run that is tried on it.
#[derive(Drop)]
struct Closed {
    words: &'static str,
    bytes: Vec<u8>,
    tables: String,
}

// Makes a file by the input, and edits it.
fn made(
    rt: &HostRuntime,
    words: &'static str,
    input: &str,
    statements: &str,
) -> io::Result<Closed> {
    clear(rt);
    let _ = run_letting(rt, "init --file F --first 2025-01")?;
    let batch = format!(in rt.alloc(); "batch --file F < {input}")?;
    let _ = run_letting(rt, batch.as_str())?;
    let _ = edited(rt, statements);
    Ok(Closed {
        words,
        bytes: fs::read(rt, PATH)?,
        tables: tables(rt)?,
    })
}

// What became of the file that was edited to these bytes.
fn fate_of_file(rt: &HostRuntime, closed: &Closed, edited: &[u8]) -> io::Result<&'static str> {
    if fs::read(rt, PATH)?.as_slice() == edited {
        return Ok("as it was edited");
    }
    if tables(rt)?.as_str() == closed.tables.as_str() {
        return Ok("as before the edit");
    }
    Ok("another")
}

// Edits the file and makes the run: a file that is refused stays, and one that is recovered has the tables of before.
fn play_edit(rt: &HostRuntime, tally: &mut Tally, closed: &Closed, line: &str) -> io::Result<()> {
    let (text, want) = parted(line);
    let statements = spelled(rt.alloc(), text)?;
    fs::write(rt, PATH, &closed.bytes)?;
    let done = edited(rt, statements.as_str()).unwrap_or("not done");
    compare(rt, tally, text, done, "done")?;
    let edited = fs::read(rt, PATH)?;
    let got = run_letting(rt, closed.words)?;
    compare_told(rt, tally, line, got.as_str())?;
    let stays = if want.starts_with("5") {
        "as it was edited"
    } else {
        "as before the edit"
    };
    compare(rt, tally, text, fate_of_file(rt, closed, &edited)?, stays)
}

fn play_over(
    rt: &HostRuntime,
    tally: &mut Tally,
    words: &'static str,
    statements: &str,
    lines: &str,
) -> io::Result<()> {
    let (input, edits) = lines.split_once('\n').unwrap_or((lines, ""));
    let closed = made(rt, words, input, statements)?;
    for line in edits.lines() {
        play_edit(rt, tally, &closed, line)?;
    }
    clear(rt);
    Ok(())
}

/// Plays each line on a file of its own, which is recovered.
pub fn play(rt: &HostRuntime, tally: &mut Tally, lines: &str) -> io::Result<()> {
    play_over(rt, tally, "recover --file F", "", lines)
}

/// Plays each line on a file of the first version of its own, which is migrated.
pub fn play_first(rt: &HostRuntime, tally: &mut Tally, lines: &str) -> io::Result<()> {
    let statements = to_first(rt.alloc())?;
    play_over(rt, tally, "migrate --file F", statements.as_str(), lines)
}
