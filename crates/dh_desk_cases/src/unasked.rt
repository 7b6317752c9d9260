//! Calls of agencies in memory that nothing is asked to fail: no growth is refused, and no stop and no limit of steps is set. So none of
//! them may answer a fault.
//!
//! A line `FILE -> N calls, 0 faults` is a script, and what its calls come to. A block is told in three ways, in each to an agency of its
//! own. The lines of a block `on tables` are told one by one to tables that are opened anew: `attach`, `recover`, `recover_1`,
//! `migrate` and `batch` are calls, and for every other line an agency attaches the tables first.

use crate::ways::{Way, outcome_line, wanted};
use dh_agency::Agency;
use dh_agency_test_kit::{all_rows, compare_tables, in_memory, table_of, tables_of, told_next};
use dh_test_kit::{Block, Manner, Tally, compare, parted, script};
use sqlite::{Alter, Connection};
use sqlite_trees::store::Reopen;
use std::alloc::{AllocError, Global};
use std::{fs, io};

// How many calls were made, and how many of them answered a fault.
#[derive(Clone, Copy)]
struct Calls {
    made: u64,
    faults: u64,
}

impl Calls {
    // Counts calls, of which the last was answered so.
    fn add(&mut self, count: u64, answer: &str) {
        self.made = self.made.saturating_add(count);
        if answer.contains("fault") {
            self.faults = self.faults.saturating_add(1);
        }
    }

    fn text(self, alloc: Global) -> Result<String, AllocError> {
        format!(in alloc; "{} calls, {} faults", self.made, self.faults)
    }
}

fn tell_line<S: Alter>(
    rt: &HostRuntime,
    tally: &mut Tally,
    calls: &mut Calls,
    agency: &mut Agency<S>,
    way: Way,
    line: &str,
) -> io::Result<()> {
    let (words, reply) = parted(line);
    if table_of(words).is_some() {
        return Ok(());
    }
    let got = outcome_line(rt.alloc(), agency, way, words)?;
    calls.add(1, got.as_str());
    let want = wanted(rt.alloc(), way, words, reply)?;
    if tally.compare(got.as_str(), want.as_str()) {
        return Ok(());
    }
    println!(rt; "{}: {words} -> {}", way.name(), got.as_str())
}

fn tell<S: Alter>(
    rt: &HostRuntime,
    tally: &mut Tally,
    calls: &mut Calls,
    agency: &mut Agency<S>,
    way: Way,
    lines: &[String],
) -> io::Result<()> {
    for line in lines {
        tell_line(rt, tally, calls, agency, way, line.as_str())?;
    }
    Ok(())
}

fn play_way(
    rt: &HostRuntime,
    tally: &mut Tally,
    calls: &mut Calls,
    way: Way,
    block: &Block,
) -> io::Result<()> {
    let Some(mut agency) = in_memory(rt.alloc())? else {
        calls.add(1, "fault");
        return compare(rt, tally, block.name.as_str(), "no agency", "an agency");
    };
    calls.add(1, "made");
    let ended = tell(rt, tally, calls, &mut agency, way, &block.all);
    let tables = tables_of(rt.alloc(), agency);
    ended?;
    compare_tables(rt, tally, block, tables?.as_str())
}

// How many calls such a line is: what another program does is none.
fn calls_of(words: &str) -> u64 {
    match words {
        _ if words.starts_with("sql,") => 0,
        "earlier tables" => 0,
        "attach" | "recover" | "recover_1" | "migrate" | "batch" => 1,
        _ => 2,
    }
}

// Tells the lines, each to tables that are opened anew, and gives these back. None where they could not be opened.
fn tell_tables<S: Alter + Reopen + Drop>(
    rt: &HostRuntime,
    tally: &mut Tally,
    calls: &mut Calls,
    mut conn: Connection<S>,
    lines: &[String],
) -> io::Result<Option<Connection<S>>> {
    for line in lines {
        let (words, want) = parted(line.as_str());
        if table_of(words).is_none() {
            let Some((answer, next)) = told_next(rt.alloc(), conn, words) else {
                return Ok(None);
            };
            conn = next;
            let got = answer?;
            calls.add(calls_of(words), got.as_str());
            compare(rt, tally, words, got.as_str(), want)?;
        }
    }
    Ok(Some(conn))
}

fn play_over<S: Alter + Reopen + Drop>(
    rt: &HostRuntime,
    tally: &mut Tally,
    calls: &mut Calls,
    conn: Connection<S>,
    block: &Block,
) -> io::Result<()> {
    let Some(mut ended) = tell_tables(rt, tally, calls, conn, &block.all)? else {
        return compare(rt, tally, block.name.as_str(), "not opened", "opened");
    };
    let tables = all_rows(rt.alloc(), &mut ended);
    drop(ended);
    compare_tables(rt, tally, block, tables?.as_str())
}

fn play_tables(
    rt: &HostRuntime,
    tally: &mut Tally,
    calls: &mut Calls,
    block: &Block,
) -> io::Result<()> {
    let Some(agency) = in_memory(rt.alloc())? else {
        calls.add(1, "fault");
        return compare(rt, tally, block.name.as_str(), "no agency", "an agency");
    };
    calls.add(1, "made");
    play_over(rt, tally, calls, agency.into_store(), block)
}

fn play_block(
    rt: &HostRuntime,
    tally: &mut Tally,
    calls: &mut Calls,
    block: &Block,
) -> io::Result<()> {
    if block.manner == Manner::OnTables {
        return play_tables(rt, tally, calls, block);
    }
    for way in [Way::Call, Way::Batch, Way::Request] {
        play_way(rt, tally, calls, way, block)?;
    }
    Ok(())
}

fn play_script(
    rt: &HostRuntime,
    tally: &mut Tally,
    calls: &mut Calls,
    file: &str,
) -> io::Result<()> {
    let text = fs::read_to_string(rt, file)?;
    for block in &script(rt.alloc(), text.as_str())? {
        play_block(rt, tally, calls, block)?;
    }
    Ok(())
}

/// Plays each script, and compares what its calls come to.
pub fn play(rt: &HostRuntime, tally: &mut Tally, lines: &str) -> io::Result<()> {
    for line in lines.lines() {
        let (file, want) = parted(line);
        let mut calls = Calls { made: 0, faults: 0 };
        play_script(rt, tally, &mut calls, file)?;
        let got = calls.text(rt.alloc())?;
        compare(rt, tally, line, got.as_str(), want)?;
    }
    Ok(())
}
