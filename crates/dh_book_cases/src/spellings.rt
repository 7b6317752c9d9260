//! Cases of values, days, records and replies: what a text is read as, and printed again.
//!
//! A line is `KIND TEXT -> WANT`, both with escapes. A blank line and one that starts with `#` are passed over.

use crate::{days, records, replies, values, writers};
use dh_test_kit::{Tally, compare, parted, spelled};
use std::alloc::{AllocError, Global};
use std::{fs, io};

// Answers the text of the kind.
fn answer(out: &mut String, alloc: Global, kind: &str, text: &str) -> Result<(), AllocError> {
    let is_said = values::answer(out, alloc, kind, text)?
        || days::answer(out, kind, text)?
        || records::answer(out, alloc, kind, text)?
        || replies::answer(out, alloc, kind, text)?
        || writers::show_stopped_writer(out, alloc, kind, text)?;
    if is_said {
        return Ok(());
    }
    out.push_str("no such case")
}

// Plays the line, where it has a case.
fn play_line(rt: &HostRuntime, tally: &mut Tally, line: &str) -> io::Result<()> {
    if line.is_empty() || line.starts_with('#') {
        return Ok(());
    }
    let (case, want) = parted(line);
    let (kind, text) = case.split_once(' ').unwrap_or((case, ""));
    let text = spelled(rt.alloc(), text)?;
    let want = spelled(rt.alloc(), want)?;
    let mut said = String::new(rt.alloc());
    answer(&mut said, rt.alloc(), kind, text.as_str())?;
    compare(rt, tally, line, said.as_str(), want.as_str())
}

// Plays the lines of the file, and prints each that is answered otherwise.
fn play_file(rt: &HostRuntime, tally: &mut Tally, file: &str) -> io::Result<()> {
    let text = fs::read_to_string(rt, file)?;
    for line in text.as_str().lines() {
        play_line(rt, tally, line)?;
    }
    Ok(())
}

/// Plays the files with these names.
pub(crate) fn play_files(rt: &HostRuntime, tally: &mut Tally, names: &str) -> io::Result<()> {
    for file in names.lines() {
        play_file(rt, tally, file)?;
    }
    Ok(())
}
