//! Cases over stores, from rows and tables in memory up to agencies and requests of HTTP. Each that is answered otherwise is printed.
#![tactic(auto)]

mod agencies;
mod blocks;
mod books;
mod calls;
mod cases;
mod drawn;
mod drawn_lines;
mod edited_tables;
mod either;
mod exchanges;
mod failing_ends;
mod interrupted_ends;
mod made_tables;
mod mishaps;
mod requests;
mod rows;
mod sessions;
mod short_reads;

use dh_agency_test_kit::{play_in_memory, play_lives};
use dh_test_kit::Tally;
use std::io;

// Plays the cases, where their kind has words of its own behind it. Whether it has.
fn play_named(rt: &HostRuntime, tally: &mut Tally, kind: &str, lines: &str) -> io::Result<bool> {
    if let Some(record) = kind.strip_prefix("rows of ") {
        rows::play_rows(rt, tally, record, lines)?;
    } else if let Some(statements) = kind.strip_prefix("tables behind ") {
        edited_tables::play_first(rt, tally, statements, lines)?;
    } else if let Some(statements) = kind.strip_prefix("later tables behind ") {
        edited_tables::play_second(rt, tally, statements, lines)?;
    } else {
        return Ok(false);
    }
    Ok(true)
}

/// Plays the cases and counts them, where their kind is one of this crate; whether it is. An error where a file or the output fails.
pub fn play(rt: &HostRuntime, tally: &mut Tally, kind: &str, lines: &str) -> io::Result<bool> {
    match kind {
        "records" => rows::play_records(rt, tally, lines)?,
        "tables made" => made_tables::play(rt, tally, lines)?,
        "agencies in memory" => play_in_memory(rt, tally, lines)?,
        "agencies taken anew" => play_lives(rt, tally, lines)?,
        "calls of each layer" => calls::play(rt, tally, lines)?,
        "files of requests" => requests::play_files(rt, tally, lines)?,
        "files of drawn lines" => drawn::play_files(rt, tally, lines)?,
        _ => return play_named(rt, tally, kind, lines),
    }
    Ok(true)
}
