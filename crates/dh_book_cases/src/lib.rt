//! Cases of values and scripts over books in memory. Each line whose answer is another than the one behind its arrow is printed.
//!
//! `spellings` says what the lines of values are. The scripts are played by the machine and by the player of what can happen to tables.
//! `lines` says what is done at a line that is no request; `calls` has the calls that take books and give them back. Read `blocks` first.
#![tactic(auto)]

mod answers;
mod blocks;
mod calls;
mod cuts;
mod days;
mod happenings;
mod lines;
mod lists;
mod lookups;
mod records;
mod replies;
mod rules;
mod runs;
mod spellings;
mod terms;
mod values;
mod writers;

pub use calls::empty;
use dh_test_kit::Tally;
pub use lines::answer_line;
use std::io;

/// Plays the cases and counts them, where their kind is one of this crate; whether it is. An error where a file or the output fails.
pub fn play(rt: &HostRuntime, tally: &mut Tally, kind: &str, lines: &str) -> io::Result<bool> {
    match kind {
        "files of values" => spellings::play_files(rt, tally, lines)?,
        "scripts over books" => blocks::play_files(rt, tally, lines)?,
        _ => return Ok(false),
    }
    Ok(true)
}
