//! Blocks, played in their manner.

use crate::calls::empty;
use crate::cuts::play_with_cuts;
use crate::happenings::play_list;
use crate::lines::{Teller, answered, replies_text};
use dh_books::Books;
use dh_test_kit::{Block, Manner, Tally, parted, script};
use std::alloc::Global;
use std::{fs, io};

/// Notes whether the line was answered as wanted, and prints it where it was not.
pub(crate) fn compare(
    rt: &HostRuntime,
    tally: &mut Tally,
    block: &Block,
    line: &str,
    got: &str,
) -> io::Result<()> {
    let (words, want) = parted(line);
    if tally.compare(got, want) {
        return Ok(());
    }
    println!(rt; "{}: {words}: wanted {want}, got {got}", block.name)
}

// Plays the line over the books.
fn play_line(
    rt: &HostRuntime,
    tally: &mut Tally,
    block: &Block,
    teller: Teller,
    books: &mut Books,
    line: &str,
) -> io::Result<()> {
    let (words, _) = parted(line);
    let got = replies_text(rt.alloc(), answered(rt.alloc(), teller, books, words))?;
    compare(rt, tally, block, line, got.as_str())
}

// Plays the lines without a look at the answers.
fn play_before(alloc: Global, teller: Teller, books: &mut Books, lines: &[String]) {
    for line in lines {
        let (words, _) = parted(line.as_str());
        let _ = answered(alloc, teller, books, words);
    }
}

fn play_lines(
    rt: &HostRuntime,
    tally: &mut Tally,
    block: &Block,
    teller: Teller,
    books: &mut Books,
) -> io::Result<()> {
    play_before(rt.alloc(), teller, books, block.before());
    for line in block.lines() {
        play_line(rt, tally, block, teller, books, line.as_str())?;
    }
    Ok(())
}

fn play_in_turn(
    rt: &HostRuntime,
    tally: &mut Tally,
    block: &Block,
    teller: Teller,
) -> io::Result<()> {
    let mut books = empty(rt.alloc(), block.version);
    play_lines(rt, tally, block, teller, &mut books)
}

// Plays one line on books of its own.
fn play_alone(rt: &HostRuntime, tally: &mut Tally, block: &Block, line: &str) -> io::Result<()> {
    let mut books = empty(rt.alloc(), block.version);
    play_before(rt.alloc(), Teller::Machine, &mut books, block.before());
    play_line(rt, tally, block, Teller::Machine, &mut books, line)
}

fn play_apart(rt: &HostRuntime, tally: &mut Tally, block: &Block) -> io::Result<()> {
    for line in block.lines() {
        play_alone(rt, tally, block, line.as_str())?;
    }
    Ok(())
}

// Plays the block, prints each line that is answered otherwise than wanted, and notes how many there were.
fn play(rt: &HostRuntime, tally: &mut Tally, block: &Block) -> io::Result<()> {
    match block.manner {
        Manner::InTurn => play_in_turn(rt, tally, block, Teller::Machine),
        Manner::Apart => play_apart(rt, tally, block),
        Manner::OnTables => play_in_turn(rt, tally, block, Teller::Player),
        Manner::AsList => play_list(rt, tally, block),
        Manner::WithCuts => {
            play_in_turn(rt, tally, block, Teller::Machine)?;
            play_with_cuts(rt, tally, block)
        }
    }
}

fn play_file(rt: &HostRuntime, tally: &mut Tally, file: &str) -> io::Result<()> {
    let text = fs::read_to_string(rt, file)?;
    let Ok(blocks) = script(rt.alloc(), text.as_str()) else {
        tally.add(false);
        return println!(rt; "{file}: not read: a heading or a number of times");
    };
    for block in &blocks {
        play(rt, tally, block)?;
    }
    Ok(())
}

/// Plays the scripts of the files with these names.
pub(crate) fn play_files(rt: &HostRuntime, tally: &mut Tally, names: &str) -> io::Result<()> {
    for file in names.lines() {
        play_file(rt, tally, file)?;
    }
    Ok(())
}
