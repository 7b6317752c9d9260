//! The manual and the examples. A line `page FILE` is a page with blocks of lines and of their answers, and `pair NAME` the lines of
//! `NAME.csv` with the answers of `NAME.out`.

use crate::pages::play_page;
use crate::runs::run_program;
use dh_test_kit::Tally;
use std::{fs, io, str};

// What `letting batch` answers to the lines, in memory.
fn answers_to(rt: &HostRuntime, lines: &[u8]) -> io::Result<Vec<u8>> {
    let mut reader = lines;
    let mut out = Vec::new(rt.alloc());
    let _ = run_program(rt, "batch", &mut reader, &mut out)?;
    Ok(out)
}

/// Counts the lines as a case, and prints its name and the answers that it gets where these are not the ones wanted.
pub fn compare_answers(
    rt: &HostRuntime,
    tally: &mut Tally,
    name: &str,
    lines: &[u8],
    want: &[u8],
) -> io::Result<()> {
    let got = answers_to(rt, lines)?;
    let is_as_wanted = got.as_slice() == want;
    tally.add(is_as_wanted);
    if is_as_wanted {
        return Ok(());
    }
    println!(rt; "{name}:\n{}", str::from_utf8(&got).unwrap_or("no text"))
}

/// The bytes of the file with this name and ending.
pub fn bytes_of(rt: &HostRuntime, name: &str, ending: &str) -> io::Result<Vec<u8>> {
    let path = format!(in rt.alloc(); "{name}.{ending}")?;
    fs::read(rt, path.as_str())
}

fn play_pair(rt: &HostRuntime, tally: &mut Tally, name: &str) -> io::Result<()> {
    let lines = bytes_of(rt, name, "csv")?;
    let want = bytes_of(rt, name, "out")?;
    compare_answers(rt, tally, name, &lines, &want)
}

fn play_part(rt: &HostRuntime, tally: &mut Tally, line: &str) -> io::Result<()> {
    match line.split_once(' ') {
        Some(("page", file)) => play_page(rt, tally, file),
        Some(("pair", name)) => play_pair(rt, tally, name),
        _ => println!(rt; "no such part: {line}"),
    }
}

/// Plays each line.
pub fn play(rt: &HostRuntime, tally: &mut Tally, lines: &str) -> io::Result<()> {
    for line in lines.lines() {
        play_part(rt, tally, line)?;
    }
    Ok(())
}
