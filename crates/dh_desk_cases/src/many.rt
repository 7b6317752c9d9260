//! Long inputs. A line is `INPUT -> STATUS LINES LAST`: an agency in memory is told the input, and then these are the program's status, how
//! many lines it printed, and the last of them.

use crate::runs::run_program;
use dh_test_kit::{Tally, compare, parted, spelled};
use std::alloc::{AllocError, Global};
use std::{io, str};

// How the program ends on this input, how many lines it prints, and the last of them.
fn last_line(rt: &HostRuntime, input: &str) -> Result<String, AllocError> {
    let mut reader = input.as_bytes();
    let mut out = Vec::new(rt.alloc());
    let status = run_program(rt, "batch", &mut reader, &mut out)?;
    let text = str::from_utf8(&out).unwrap_or("no text");
    let last = text.lines().last().unwrap_or("no line");
    format!(in rt.alloc(); "{} {} {last}", status.code(), text.lines().count())
}

/// Plays each line.
pub fn play(rt: &HostRuntime, tally: &mut Tally, lines: &str) -> io::Result<()> {
    for line in lines.lines() {
        let (words, want) = parted(line);
        let input = spelled(rt.alloc(), words)?;
        let got = last_line(rt, input.as_str())?;
        compare(rt, tally, line, got.as_str(), want)?;
    }
    Ok(())
}
