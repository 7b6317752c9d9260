//! Scripts that agencies are told. A line `rows,TABLE -> ..` is compared in the end, with the rows of the table.

use crate::agencies::{in_memory, reply_line, tables_of};
use crate::rows::rows_of;
use dh_agency::Agency;
use dh_test_kit::{Block, Tally, compare, parted, script};
use sqlite::Alter;
use std::alloc::Global;
use std::io;

/// The table whose rows the words ask for, where they do.
pub fn table_of(words: &str) -> Option<&str> {
    words.strip_prefix("rows,")
}

// Tells the lines without a look at the replies.
fn tell_before<S: Alter>(
    alloc: Global,
    agency: &mut Agency<S>,
    lines: &[String],
) -> io::Result<()> {
    for line in lines {
        let (words, _) = parted(line.as_str());
        if table_of(words).is_none() {
            let _reply = reply_line(alloc, agency, words)?;
        }
    }
    Ok(())
}

fn tell_line<S: Alter>(
    rt: &HostRuntime,
    tally: &mut Tally,
    agency: &mut Agency<S>,
    line: &str,
) -> io::Result<()> {
    let (words, want) = parted(line);
    if table_of(words).is_some() {
        return Ok(());
    }
    let got = reply_line(rt.alloc(), agency, words)?;
    compare(rt, tally, words, got.as_str(), want)
}

// Tells the agency the lines of the block, after those that it stands after, and compares what they are answered.
fn tell<S: Alter>(
    rt: &HostRuntime,
    tally: &mut Tally,
    agency: &mut Agency<S>,
    block: &Block,
) -> io::Result<()> {
    tell_before(rt.alloc(), agency, block.before())?;
    for line in block.lines() {
        tell_line(rt, tally, agency, line.as_str())?;
    }
    Ok(())
}

/// Compares the tables, whose rows are given as one text, with the rows that the block names.
pub fn compare_tables(
    rt: &HostRuntime,
    tally: &mut Tally,
    block: &Block,
    tables: &str,
) -> io::Result<()> {
    for line in block.lines() {
        let (words, want) = parted(line.as_str());
        if let Some(table) = table_of(words) {
            compare(rt, tally, words, rows_of(tables, table), want)?;
        }
    }
    Ok(())
}

fn play(rt: &HostRuntime, tally: &mut Tally, block: &Block) -> io::Result<()> {
    let Some(mut agency) = in_memory(rt.alloc())? else {
        return compare(rt, tally, block.name.as_str(), "no agency", "an agency");
    };
    let ended = tell(rt, tally, &mut agency, block);
    let tables = tables_of(rt.alloc(), agency);
    ended?;
    compare_tables(rt, tally, block, tables?.as_str())
}

/// The blocks of the script told to agencies in memory, to each block one of its own.
pub fn play_in_memory(rt: &HostRuntime, tally: &mut Tally, text: &str) -> io::Result<()> {
    for block in &script(rt.alloc(), text)? {
        play(rt, tally, block)?;
    }
    Ok(())
}
