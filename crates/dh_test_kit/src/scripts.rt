//! Blocks of lines under headings.

use crate::Unreadable;
use crate::escapes::lines_told;
use dh_types::Version;
use std::alloc::{AllocError, Global};

/// How the lines of a block are played.
#[derive(Clone, Copy, PartialEq, Eq)]
pub enum Manner {
    /// One after the other, by the machine.
    InTurn,
    /// `each apart`: each on books of its own, as they are before the block.
    Apart,
    /// `on tables`: one after the other, by the player of what can happen to tables.
    OnTables,
    /// `as a list`: all commands and happenings as one list of the player, and then what is asked.
    AsList,
    /// `with cuts`: one after the other, and once more for each command and each way in which it may be interrupted.
    WithCuts,
}

/// Lines under one heading, which is `== NAME`, and behind commas `after NAME` of a block above it and the manner. Books begin
/// with 2025-01 and no row; they are of the second version, but behind `of the first version`. Between blocks may stand empty
/// lines, and lines of words behind `#`. A line that is a repetition, as `~(102..200 property,P{n},.. -> ok~)`, stands for its lines.
/// One that begins with `/ ` goes on with the one above it.
#[derive(Drop)]
pub struct Block {
    pub name: String,
    pub manner: Manner,
    pub version: Version,
    /// The lines of the blocks that it stands after, the first block's first, and then its own.
    pub all: Vec<String>,
    /// How many of them are of other blocks.
    begin: usize,
}

impl Block {
    /// The lines of the blocks that it stands after.
    pub fn before(&self) -> &[String] {
        self.all.get(..self.begin).unwrap_or(&[])
    }

    /// Its own lines.
    pub fn lines(&self) -> &[String] {
        self.all.get(self.begin..).unwrap_or(&[])
    }
}

/// The words of a line, and what is wanted.
pub fn parted(line: &str) -> (&str, &str) {
    line.split_once(" -> ").unwrap_or((line, "no arrow"))
}

/// The blocks of a text, between which stand empty lines: the first line of each, which has its kind, and the others.
pub fn blocks_in(alloc: Global, text: &str) -> Result<Vec<(&str, &str)>, AllocError> {
    let mut blocks = Vec::new(alloc);
    for block in text.split("\n\n") {
        blocks.push(block.split_once('\n').unwrap_or((block, "")))?;
    }
    Ok(blocks)
}

// The block that is named so.
fn named<'a>(blocks: &'a [Block], name: &str) -> Result<&'a Block, Unreadable> {
    for block in blocks {
        if block.name.as_str() == name {
            return Ok(block);
        }
    }
    Err(Unreadable)
}

// Adds the lines of the block that the word of a heading names.
fn put_before(
    alloc: Global,
    lines: &mut Vec<String>,
    blocks: &[Block],
    word: &str,
) -> Result<(), Unreadable> {
    let name = word.strip_prefix("after ").ok_or(Unreadable)?;
    for line in &named(blocks, name)?.all {
        lines.push(line.as_str().to_string(alloc)?)?;
    }
    Ok(())
}

fn manner_of(word: &str) -> Option<Manner> {
    match word {
        "each apart" => Some(Manner::Apart),
        "on tables" => Some(Manner::OnTables),
        "as a list" => Some(Manner::AsList),
        "with cuts" => Some(Manner::WithCuts),
        _ => None,
    }
}

// Adds what a word of the heading says of the block.
fn add_word(
    alloc: Global,
    block: &mut Block,
    blocks: &[Block],
    word: &str,
) -> Result<(), Unreadable> {
    match (word, manner_of(word)) {
        ("of the first version", _) => block.version = Version::First,
        (_, Some(manner)) => block.manner = manner,
        (_, None) => put_before(alloc, &mut block.all, blocks, word)?,
    }
    Ok(())
}

// The block of the heading, without its own lines.
fn headed(alloc: Global, blocks: &[Block], heading: &str) -> Result<Block, Unreadable> {
    let mut words = heading.split(", ");
    let mut block = Block {
        name: words.next().unwrap_or("").to_string(alloc)?,
        manner: Manner::InTurn,
        version: Version::Second,
        all: Vec::new(alloc),
        begin: 0,
    };
    for word in words {
        add_word(alloc, &mut block, blocks, word)?;
    }
    block.begin = block.all.len();
    Ok(block)
}

// Goes on with the last line.
fn go_on(lines: &mut [String], line: &str) -> Result<(), Unreadable> {
    let last = lines.last_mut().ok_or(Unreadable)?;
    last.push_str(" ")?;
    last.push_str(line)?;
    Ok(())
}

// Adds what a line of the text says.
fn add(alloc: Global, blocks: &mut Vec<Block>, line: &str) -> Result<(), Unreadable> {
    if line.is_empty() || line.starts_with('#') {
        return Ok(());
    }
    if let Some(heading) = line.strip_prefix("== ") {
        let block = headed(alloc, blocks, heading)?;
        blocks.push(block)?;
        return Ok(());
    }
    let block = blocks.last_mut().ok_or(Unreadable)?;
    if line.starts_with("/ ") {
        return go_on(&mut block.all, line);
    }
    for told in lines_told(alloc, line)? {
        block.all.push(told)?;
    }
    Ok(())
}

/// The blocks of the text; an error where a heading names no block above it or no manner, or a line stands above the first.
pub fn script(alloc: Global, text: &str) -> Result<Vec<Block>, Unreadable> {
    let mut blocks = Vec::new(alloc);
    for line in text.lines() {
        add(alloc, &mut blocks, line)?;
    }
    Ok(blocks)
}
