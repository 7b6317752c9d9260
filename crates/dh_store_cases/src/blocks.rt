//! Blocks of cases.

use dh_test_kit::Unreadable;
use std::alloc::{AllocError, Global};

/// Lines under one heading, which is `== NAME`, and behind commas what is said of the block: `after NAME` of a block above it,
/// whose records are its first; `to the end`, of a request that is answered only at the end of input; `over a listener`, of one that
/// is also sent to a listener. Lines of words stand behind `#`. The lines of a block begin with a mark:
///
/// - `+ RECORD`, a record that is carried out before the request;
/// - `= RECORD -> LINE`, a session of its own: the records of the block, then this one, and the last line of its answers;
/// - `> LINE`, a line of the request, and `>| BYTES`, bytes of it without a line end;
/// - `< LINE` and `<| BYTES`, of the answer; without one, none is wanted; `<= NAME`, the answer of a block above;
/// - `- WORD -> NAME`, a case of its own: the word for `~_` in the request, and the block whose answer is wanted;
/// - `? RECORD -> REPLY`, what is replied afterwards.
#[derive(Drop)]
pub struct Block {
    pub name: String,
    pub records: String,
    /// The records that end a session of their own, each with an arrow and the line of its answer.
    pub sessions: Vec<String>,
    /// The request, where the block has one.
    pub request: Option<String>,
    pub answer: String,
    /// The cases, each with its word, an arrow and the name of its answer.
    pub cases: Vec<String>,
    /// What is replied to records afterwards, a record to a line.
    pub replies: String,
    pub is_to_the_end: bool,
    pub is_over_a_listener: bool,
}

/// The block that is named so.
pub fn named<'a>(blocks: &'a [Block], name: &str) -> Result<&'a Block, Unreadable> {
    for block in blocks {
        if block.name.as_str() == name {
            return Ok(block);
        }
    }
    Err(Unreadable)
}

fn empty(alloc: Global, name: &str) -> Result<Block, AllocError> {
    Ok(Block {
        name: name.to_string(alloc)?,
        records: String::new(alloc),
        sessions: Vec::new(alloc),
        request: None,
        answer: String::new(alloc),
        cases: Vec::new(alloc),
        replies: String::new(alloc),
        is_to_the_end: false,
        is_over_a_listener: false,
    })
}

// Adds what a word of the heading says of the block.
fn add_word(block: &mut Block, blocks: &[Block], word: &str) -> Result<(), Unreadable> {
    match word {
        "to the end" => block.is_to_the_end = true,
        "over a listener" => block.is_over_a_listener = true,
        _ => {
            let name = word.strip_prefix("after ").ok_or(Unreadable)?;
            block
                .records
                .push_str(named(blocks, name)?.records.as_str())?;
        }
    }
    Ok(())
}

// The block of the heading, without its lines.
fn headed(alloc: Global, blocks: &[Block], heading: &str) -> Result<Block, Unreadable> {
    let mut words = heading.split(", ");
    let mut block = empty(alloc, words.next().unwrap_or(""))?;
    for word in words {
        add_word(&mut block, blocks, word)?;
    }
    Ok(block)
}

fn add_line(text: &mut String, line: &str, end: &str) -> Result<(), AllocError> {
    text.push_str(line)?;
    text.push_str(end)
}

// The request of the block, which is begun where it has none.
fn request_of(alloc: Global, block: &mut Block) -> &mut String {
    block.request.get_or_insert(String::new(alloc))
}

// Adds what stands behind a mark.
fn add_marked(alloc: Global, block: &mut Block, mark: &str, text: &str) -> Result<(), Unreadable> {
    match mark {
        "+" => Ok(add_line(&mut block.records, text, "\n")?),
        "=" => Ok(block.sessions.push(text.to_string(alloc)?)?),
        ">" => Ok(add_line(request_of(alloc, block), text, "~r~n")?),
        ">|" => Ok(request_of(alloc, block).push_str(text)?),
        "<" => Ok(add_line(&mut block.answer, text, "~r~n")?),
        "<|" => Ok(block.answer.push_str(text)?),
        "-" => Ok(block.cases.push(text.to_string(alloc)?)?),
        "?" => Ok(add_line(&mut block.replies, text, "\n")?),
        _ => Err(Unreadable),
    }
}

// Gives the last block the answer of the block that is named so.
fn share_answer(alloc: Global, blocks: &mut [Block], name: &str) -> Result<(), Unreadable> {
    let answer = named(blocks, name)?.answer.as_str().to_string(alloc)?;
    let block = blocks.last_mut().ok_or(Unreadable)?;
    block.answer = answer;
    Ok(())
}

// Adds what a line of the text says.
fn add(alloc: Global, blocks: &mut Vec<Block>, line: &str) -> Result<(), Unreadable> {
    let (mark, text) = line.split_once(' ').unwrap_or((line, ""));
    match mark {
        "" | "#" => Ok(()),
        "==" => {
            let block = headed(alloc, blocks, text)?;
            Ok(blocks.push(block)?)
        }
        "<=" => share_answer(alloc, blocks, text),
        _ => {
            let block = blocks.last_mut().ok_or(Unreadable)?;
            add_marked(alloc, block, mark, text)
        }
    }
}

/// The blocks of the text; an error where a name is that of no block above, or a mark is unknown.
pub fn blocks_of(alloc: Global, text: &str) -> Result<Vec<Block>, Unreadable> {
    let mut blocks = Vec::new(alloc);
    for line in text.lines() {
        add(alloc, &mut blocks, line)?;
    }
    Ok(blocks)
}
