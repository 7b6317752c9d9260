//! Answers in turn. Behind the lines of a life, a line `in turn WORDS < INPUT -> STATUS TEXT` is a run whose reader gives a line of the input
//! a read, and each only once all is written that is wanted before its answer: an answer that is kept back makes the reader fail.

ghost use Rattle.std.specs.Prelude.{◌≡◌};

use crate::lives;
use crate::runs::{Deed, Follower, clear, compare_told, input_of, outcome, run_program};
use dh_test_kit::{Tally, parted, spelled};
use std::alloc::{AllocError, Global};
use std::cell::Cell;
use std::io;
use std::io::{ErrorKind, Read};

// How many bytes of the wanted text stand before the answer to the record of this number.
fn before(alloc: Global, wanted: &str, number: usize) -> Result<usize, AllocError> {
    let mark = format!(in alloc; "\n{number} ")?;
    Ok(match wanted.find(mark.as_str()) {
        Some(at) => at.saturating_add(1),
        None => wanted.len(),
    })
}

// How many bytes have to be written before each line, and before the end.
fn marks_of(alloc: Global, wanted: &str, lines: usize) -> Result<Vec<usize>, AllocError> {
    let mut marks = vec![in alloc; 0]?;
    for number in 2..=lines {
        marks.push(before(alloc, wanted, number)?)?;
    }
    marks.push(wanted.len())?;
    Ok(marks)
}

// A reader that gives no more than a line a read, and each line in its turn.
#[derive(Drop)]
struct Asker<'a> {
    input: &'a [u8],
    marks: &'a [usize],
    written: &'a Cell<usize>,
    is_within: bool,
}

impl Asker<'_> {
    // Whether the next line may be given: all is written that is wanted before its answer.
    fn is_in_turn(&mut self) -> bool
        ensures { self.new.input ≡ self.old.input }
    {
        let Some((mark, marks)) = self.marks.split_first() else {
            return true;
        };
        self.marks = marks;
        self.written.get() == *mark
    }
}

impl Read for Asker<'_> {
    fn read(&mut self, buf: &mut [u8]) -> io::Result<usize> {
        if !self.is_within && !self.is_in_turn() {
            return Err(ErrorKind::Other.into());
        }
        let line = self.input.iter().position(|byte| *byte == b'\n');
        let length = line.map_or(self.input.len(), |at| at.saturating_add(1));
        let some = length.min(buf.len());
        self.is_within = some < length;
        self.input.read(&mut buf[..some])
    }
}

// What notes how much is written.
#[derive(Drop)]
struct Answers<'a> {
    written: &'a Cell<usize>,
}

impl Deed for Answers<'_> {
    fn follow(&mut self, told: &[u8]) {
        self.written.set(told.len());
    }
}

// What a run comes to whose lines are given in turn, where this output is wanted.
fn run_in_turn(rt: &HostRuntime, told: &str, wanted: &str) -> io::Result<String> {
    let alloc = rt.alloc();
    let (words, input) = told.split_once(" < ").unwrap_or((told, ""));
    let input = input_of(alloc, input)?;
    let marks = marks_of(alloc, wanted, input.lines().count())?;
    let written = Cell::new(0);
    let mut reader = Asker {
        input: input.as_bytes(),
        marks: &marks,
        written: &written,
        is_within: false,
    };
    let mut answers = Follower {
        told: Vec::new(alloc),
        deed: Answers { written: &written },
    };
    let status = run_program(rt, words, &mut reader, &mut answers)?;
    Ok(outcome(alloc, status.code(), &answers.told)?)
}

fn play_line(rt: &HostRuntime, tally: &mut Tally, line: &str) -> io::Result<()> {
    let Some(rest) = line.strip_prefix("in turn ") else {
        return lives::play_line(rt, tally, &mut Vec::new(rt.alloc()), line);
    };
    let (told, want) = parted(rest);
    let (_, output) = want.split_once(' ').unwrap_or((want, ""));
    let output = spelled(rt.alloc(), output)?;
    let got = run_in_turn(rt, told, output.as_str())?;
    compare_told(rt, tally, line, got.as_str())
}

/// Plays the lines, one after the other, on a path where nothing is.
pub fn play(rt: &HostRuntime, tally: &mut Tally, lines: &str) -> io::Result<()> {
    clear(rt);
    for line in lines.lines() {
        play_line(rt, tally, line)?;
    }
    clear(rt);
    Ok(())
}
