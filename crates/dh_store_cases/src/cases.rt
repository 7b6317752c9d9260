//! Cases of requests, and how what came of one is compared. It becomes a text only where it differs.

use crate::agencies::Outcome;
use crate::blocks::Block;
use dh_test_kit::Tally;
use std::{io, str};

/// A request with the answer that is wanted, the block and the word that it is made of, and the tables before it.
#[derive(Drop)]
pub struct Case<'a> {
    pub block: &'a Block,
    pub word: &'a str,
    pub before: &'a str,
    pub request: Vec<u8>,
    pub answer: Vec<u8>,
    /// Whether a case of the block above this one has the same answer.
    pub has_answer_above: bool,
}

/// How a request with this answer ends.
pub fn end_of(answer: &[u8]) -> &str {
    match answer.get(9..12) {
        Some(status) => str::from_utf8(status).unwrap_or("no status"),
        None => "closed",
    }
}

/// In which way a case is played, and behind how many bytes a call fails or is interrupted.
#[derive(Clone, Copy)]
pub struct Way {
    pub words: &'static str,
    pub bytes: usize,
}

impl Way {
    /// A way in which no call fails.
    pub fn of(words: &'static str) -> Way {
        Way { words, bytes: 0 }
    }
}

// Prints the case with what is said of it.
fn tell(rt: &HostRuntime, case: &Case, way: Way, said: &str) -> io::Result<()> {
    let (name, word) = (case.block.name.as_str(), case.word);
    println!(rt;
        "{name} {word}, {} behind {} bytes: {said}",
        way.words, way.bytes
    )
}

/// Compares what came of the case, played in this way.
pub fn judge(
    rt: &HostRuntime,
    tally: &mut Tally,
    case: &Case,
    way: Way,
    got: &Outcome,
    want: &Outcome,
) -> io::Result<()> {
    let is_as_wanted = got.is_same(want);
    tally.add(is_as_wanted);
    if is_as_wanted {
        return Ok(());
    }
    tell(rt, case, way, got.end)?;
    let written = str::from_utf8(got.written).unwrap_or("no text");
    println!(rt; "{written}\n{}", got.replies)
}

/// Compares the tables behind the case, played in this way.
pub fn judge_tables(
    rt: &HostRuntime,
    tally: &mut Tally,
    case: &Case,
    way: Way,
    got: &str,
    want: &str,
) -> io::Result<()> {
    if tally.compare(got, want) {
        return Ok(());
    }
    tell(rt, case, way, got)
}
