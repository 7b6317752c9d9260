//! Large offices. The lines of a block say what the program is told and what it has to print, and run it:
//! - `tell LINE` is a line of the input, and `want LINE` one of the output. A repetition stands for its lines.
//! - `letting WORDS -> STATUS` is a run. What was told since the run before is its input, and what is wanted since then its whole output.
//! - `edit -> done` runs what was told as statements on the file, as another program would.
//! - `note` says how a sum was reckoned.

use crate::lives::edited;
use crate::runs::{clear, run_program};
use dh_test_kit::{Tally, Unreadable, compare, lines_told, parted};
use std::alloc::{AllocError, Global};
use std::{io, str};

// What the program is told in its next run, and what it has to print then.
#[derive(Drop)]
struct Telling {
    input: String,
    want: String,
}

fn nothing(rt: &HostRuntime) -> Telling {
    Telling {
        input: String::new(rt.alloc()),
        want: String::new(rt.alloc()),
    }
}

// Adds the line, or those of a repetition.
fn put(alloc: Global, text: &mut String, line: &str) -> Result<(), Unreadable> {
    for told in &lines_told(alloc, line)? {
        text.push_str(told.as_str())?;
        text.push_str("\n")?;
    }
    Ok(())
}

// The number of the first line that is another than the wanted one, and that line.
fn first_other<'a>(got: &'a str, want: &str) -> (usize, &'a str) {
    let mut wanted = want.lines();
    let mut number: usize = 0;
    for line in got.lines() {
        number = number.saturating_add(1);
        if !wanted.next().is_some_and(|it| it == line) {
            return (number, line);
        }
    }
    (number.saturating_add(1), "not there")
}

// The status of the run of these words, and where it prints another line than is wanted.
fn run_letting(rt: &HostRuntime, words: &str, telling: &Telling) -> Result<String, AllocError> {
    let mut reader = telling.input.as_bytes();
    let mut out = Vec::new(rt.alloc());
    let code = run_program(rt, words, &mut reader, &mut out)?.code();
    let got = str::from_utf8(&out).unwrap_or("no text");
    let want = telling.want.as_str();
    if got == want {
        return format!(in rt.alloc(); "{code}");
    }
    let (number, line) = first_other(got, want);
    format!(in rt.alloc(); "{code}, but line {number} is: {line}")
}

// What the run or the edit comes to.
fn outcome(
    rt: &HostRuntime,
    telling: &Telling,
    kind: &str,
    words: &str,
) -> Result<String, AllocError> {
    match kind {
        "letting" => run_letting(rt, words, telling),
        "edit" => edited(rt, telling.input.as_str())
            .unwrap_or("not done")
            .to_string(rt.alloc()),
        _ => "no kind".to_string(rt.alloc()),
    }
}

fn play_line(
    rt: &HostRuntime,
    tally: &mut Tally,
    telling: &mut Telling,
    line: &str,
) -> io::Result<()> {
    let (kind, rest) = line.split_once(' ').unwrap_or((line, ""));
    match kind {
        "note" => return Ok(()),
        "tell" => return Ok(put(rt.alloc(), &mut telling.input, rest)?),
        "want" => return Ok(put(rt.alloc(), &mut telling.want, rest)?),
        _ => {}
    }
    let (told, want) = parted(line);
    let (_, words) = told.split_once(' ').unwrap_or((told, ""));
    let got = outcome(rt, telling, kind, words)?;
    *telling = nothing(rt);
    compare(rt, tally, line, got.as_str(), want)
}

/// Plays the lines, one after the other, on a path where nothing is.
pub fn play(rt: &HostRuntime, tally: &mut Tally, lines: &str) -> io::Result<()> {
    clear(rt);
    let mut telling = nothing(rt);
    for line in lines.lines() {
        play_line(rt, tally, &mut telling, line)?;
    }
    clear(rt);
    Ok(())
}
