//! Sessions of drawn lines, told to agencies in memory and to the plain program over books: each line that the two answer otherwise, and what
//! their tables then differ in. A file has the lines that are drawn from, the replies that are to occur, and lines that are told to a store of
//! many owners under a limit of steps.

use crate::sessions::{Plan, play_sessions};
use crate::short_reads::play_short_reads;
use dh_test_kit::{Tally, compare};
use std::{fs, io};

const SESSIONS: u32 = 500;

// With how many lines each goes on.
const FURTHER_LINES: u32 = 12;

// The lines of a block below its heading.
fn below(block: Option<&str>) -> &str {
    let (_, lines) = block.unwrap_or("").split_once('\n').unwrap_or(("", ""));
    lines
}

// Compares whether each of the replies was given.
fn compare_replies(
    rt: &HostRuntime,
    tally: &mut Tally,
    replies: &str,
    wanted: &str,
) -> io::Result<()> {
    for want in wanted.lines() {
        let line = format!(in rt.alloc(); "\n{want}\n")?;
        let got = if replies.contains(line.as_str()) {
            "given"
        } else {
            "never given"
        };
        compare(rt, tally, want, got, "given")?;
    }
    Ok(())
}

fn play_file(rt: &HostRuntime, tally: &mut Tally, file: &str) -> io::Result<()> {
    let text = fs::read_to_string(rt, file)?;
    let mut blocks = text.as_str().trim_end().split("\n\n");
    let plan = Plan {
        sessions: SESSIONS,
        opening: below(blocks.next()),
        further: below(blocks.next()),
        count: FURTHER_LINES,
    };
    let replies = play_sessions(rt, tally, plan)?;
    compare_replies(rt, tally, replies.as_str(), below(blocks.next()))?;
    play_short_reads(rt, tally, below(blocks.next()))
}

/// Plays the sessions that each file tells of.
pub fn play_files(rt: &HostRuntime, tally: &mut Tally, files: &str) -> io::Result<()> {
    for file in files.lines() {
        play_file(rt, tally, file)?;
    }
    Ok(())
}
