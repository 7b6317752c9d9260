//! Requests of which a call fails or is interrupted, each call in turn, and the tables that are left.

use crate::agencies::agency_behind;
use crate::cases::{Case, Way, judge_tables};
use crate::failing_ends::{play_read_behind, play_write_behind};
use crate::interrupted_ends::play_interrupted_behind;
use dh_agency::Agency;
use dh_agency_test_kit::tables_of;
use dh_test_kit::Tally;
use sqlite::{Alter, MemStore};
use std::io;

// Up to so many reads a reader gives a byte a read. A longer request comes in pieces, and what stands before the failing read in one
// read: its head would be parsed anew with each.
const MOST_SLOW_READS: u64 = 1000;

// How many bytes a piece has.
const PIECE: usize = 16;

// What befalls calls. A slow reader gives a byte a read.
#[derive(Clone, Copy)]
enum Mishap {
    FailingRead { is_slow: bool },
    FailingWrite,
    Interruption { is_slow: bool },
}

impl Mishap {
    // Plays the case with this agency, where it befalls the call behind so many bytes.
    fn play<S: Alter>(
        self,
        rt: &HostRuntime,
        tally: &mut Tally,
        agency: &mut Agency<S>,
        case: &Case,
        bytes: usize,
    ) -> io::Result<()> {
        match self {
            Mishap::FailingRead { is_slow } => {
                play_read_behind(rt, tally, agency, case, bytes, is_slow)
            }
            Mishap::FailingWrite => play_write_behind(rt, tally, agency, case, bytes),
            Mishap::Interruption { is_slow } => {
                play_interrupted_behind(rt, tally, agency, case, bytes, is_slow)
            }
        }
    }
}

// The calls that it befalls in turn, those behind each so many bytes, up to an end; and what is said of the tables.
#[derive(Clone, Copy)]
struct Calls {
    mishap: Mishap,
    words: &'static str,
    step: usize,
    end: usize,
}

// Compares the tables that the agency leaves, once what was played with it has ended so.
fn judge_left(
    rt: &HostRuntime,
    tally: &mut Tally,
    case: &Case,
    way: Way,
    ended: (Agency<MemStore>, io::Result<()>),
    want: &str,
) -> io::Result<()> {
    let (agency, played) = ended;
    let tables = tables_of(rt.alloc(), agency)?;
    played?;
    judge_tables(rt, tally, case, way, tables.as_str(), want)
}

fn play_on_one<S: Alter>(
    rt: &HostRuntime,
    tally: &mut Tally,
    agency: &mut Agency<S>,
    case: &Case,
    calls: Calls,
) -> io::Result<()> {
    for at in 0..calls.end {
        let bytes = at.saturating_mul(calls.step);
        if calls.end <= bytes {
            return Ok(());
        }
        calls.mishap.play(rt, tally, agency, case, bytes)?;
    }
    Ok(())
}

fn play_on_new(
    rt: &HostRuntime,
    tally: &mut Tally,
    case: &Case,
    calls: Calls,
    after: &str,
) -> io::Result<()> {
    for at in 0..calls.end {
        let bytes = at.saturating_mul(calls.step);
        if calls.end <= bytes {
            return Ok(());
        }
        let mut agency = agency_behind(rt.alloc(), case.block)?;
        let played = calls.mishap.play(rt, tally, &mut agency, case, bytes);
        let way = Way {
            words: calls.words,
            bytes,
        };
        judge_left(rt, tally, case, way, (agency, played), after)?;
    }
    Ok(())
}

// Plays the case with each of the calls, and compares the tables with those behind the request. One that changes nothing is served by one
// agency each time, and a command that is carried out by a new one.
fn play_calls(
    rt: &HostRuntime,
    tally: &mut Tally,
    case: &Case,
    calls: Calls,
    after: &str,
) -> io::Result<()> {
    if after != case.before {
        return play_on_new(rt, tally, case, calls, after);
    }
    let mut agency = agency_behind(rt.alloc(), case.block)?;
    let played = play_on_one(rt, tally, &mut agency, case, calls);
    let way = Way::of(calls.words);
    judge_left(rt, tally, case, way, (agency, played), after)
}

/// Each of so many reads, which the request takes, fails in turn: nothing is written, and the tables stay as they were.
pub fn play_reads(rt: &HostRuntime, tally: &mut Tally, case: &Case, reads: u64) -> io::Result<()> {
    let is_slow = reads <= MOST_SLOW_READS;
    let calls = Calls {
        mishap: Mishap::FailingRead { is_slow },
        words: "the tables, failing reads",
        step: if is_slow { 1 } else { PIECE },
        end: reads as usize,
    };
    play_calls(rt, tally, case, calls, case.before)
}

/// Each write fails in turn, and then none: the tables are those behind the whole answer. If a case above has the same answer to a command
/// that is carried out, the writes behind each piece of it fail.
pub fn play_writes(
    rt: &HostRuntime,
    tally: &mut Tally,
    case: &Case,
    after: &str,
) -> io::Result<()> {
    let is_short = case.has_answer_above && after != case.before;
    let calls = Calls {
        mishap: Mishap::FailingWrite,
        words: "the tables, failing writes",
        step: if is_short { PIECE } else { 1 },
        end: case.answer.len().saturating_add(1),
    };
    play_calls(rt, tally, case, calls, after)
}

/// Each of so many reads, which the request takes, is interrupted in turn, and each write of its answer: the tables are those behind it. In
/// a long request the calls behind each piece are, and so they are of a command that is carried out; in a long one, those behind
/// sixteen pieces.
pub fn play_interrupted(
    rt: &HostRuntime,
    tally: &mut Tally,
    case: &Case,
    after: &str,
    reads: u64,
) -> io::Result<()> {
    let is_slow = reads <= MOST_SLOW_READS;
    let calls = Calls {
        mishap: Mishap::Interruption { is_slow },
        words: "the tables, interrupted",
        step: match (is_slow, after == case.before) {
            (true, true) => 1,
            (true, false) | (false, true) => PIECE,
            (false, false) => PIECE * PIECE,
        },
        end: case.answer.len().max(reads as usize),
    };
    play_calls(rt, tally, case, calls, after)
}
