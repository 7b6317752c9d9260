//! Files of requests of HTTP. Read `Block` first: it says how the cases are written.

use crate::agencies::{agency_behind, last_line};
use crate::blocks::{Block, blocks_of, named};
use crate::cases::Case;
use crate::exchanges::play_case;
use dh_agency_test_kit::tables_of;
use dh_test_kit::{Tally, Unreadable, bytes_of, compare, parted};
use std::alloc::Global;
use std::{fs, io};

// The bytes of the request with this word, and with the number of its bytes.
fn request_bytes(alloc: Global, request: &str, word: &str) -> Result<Vec<u8>, Unreadable> {
    let length = bytes_of(alloc, word)?.len().to_string(alloc)?;
    let request = request.replace(alloc, "~#", length.as_str())?;
    bytes_of(alloc, request.as_str().replace(alloc, "~_", word)?.as_str())
}

// Plays the request with this word, whose answer is given with escapes; and whether a case above has the same.
fn play_word(
    rt: &HostRuntime,
    tally: &mut Tally,
    block: &Block,
    before: &str,
    word: &str,
    answer: (&str, bool),
) -> io::Result<()> {
    let Some(request) = &block.request else {
        return Ok(());
    };
    let case = Case {
        block,
        word,
        before,
        request: request_bytes(rt.alloc(), request.as_str(), word)?,
        answer: bytes_of(rt.alloc(), answer.0)?,
        has_answer_above: answer.1,
    };
    play_case(rt, tally, &case)
}

// Whether one of the cases has the answer that is named so.
fn has_answer(cases: &[String], name: &str) -> bool {
    for case in cases {
        if parted(case.as_str()).1 == name {
            return true;
        }
    }
    false
}

fn play_words(
    rt: &HostRuntime,
    tally: &mut Tally,
    blocks: &[Block],
    block: &Block,
    before: &str,
) -> io::Result<()> {
    for (at, case) in block.cases.iter().enumerate() {
        let (word, name) = parted(case.as_str());
        let above = block.cases.get(..at).unwrap_or(block.cases.as_slice());
        let answer = named(blocks, name)?.answer.as_str();
        play_word(
            rt,
            tally,
            block,
            before,
            word,
            (answer, has_answer(above, name)),
        )?;
    }
    Ok(())
}

// Plays each session of the block.
fn play_sessions(rt: &HostRuntime, tally: &mut Tally, block: &Block) -> io::Result<()> {
    for session in &block.sessions {
        let (record, want) = parted(session.as_str());
        let bytes = bytes_of(rt.alloc(), record)?;
        let got = last_line(rt.alloc(), block, &bytes)?;
        compare(rt, tally, record, got.as_str(), want)?;
    }
    Ok(())
}

fn play(rt: &HostRuntime, tally: &mut Tally, blocks: &[Block], block: &Block) -> io::Result<()> {
    play_sessions(rt, tally, block)?;
    if block.request.is_none() {
        return Ok(());
    }
    let before = tables_of(rt.alloc(), agency_behind(rt.alloc(), block)?)?;
    let before = before.as_str();
    if block.cases.is_empty() {
        let answer = block.answer.as_str();
        return play_word(rt, tally, block, before, "", (answer, false));
    }
    play_words(rt, tally, blocks, block, before)
}

// The text of the files, one behind the other.
fn text_of(rt: &HostRuntime, files: &str) -> io::Result<String> {
    let mut text = String::new(rt.alloc());
    for file in files.split(' ') {
        text.push_str(fs::read_to_string(rt, file)?.as_str())?;
    }
    Ok(text)
}

// Plays the requests of these files, of which each may name the blocks of those before it.
fn play_together(rt: &HostRuntime, tally: &mut Tally, files: &str) -> io::Result<()> {
    let text = text_of(rt, files)?;
    let blocks = blocks_of(rt.alloc(), text.as_str())?;
    for block in &blocks {
        play(rt, tally, &blocks, block)?;
    }
    Ok(())
}

/// Plays the requests of the files on agencies in memory. Files of one line are read as one.
pub fn play_files(rt: &HostRuntime, tally: &mut Tally, files: &str) -> io::Result<()> {
    for line in files.lines() {
        play_together(rt, tally, line)?;
    }
    Ok(())
}
