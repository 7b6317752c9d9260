//! Lists of what can happen to tables, played at once.

use crate::blocks::compare;
use crate::calls::{empty, put_back};
use crate::lines::{Teller, answered, replies_text};
use dh_books::Books;
use dh_rules::{Happening, Reach, play};
use dh_test_kit::{Block, Tally, Unreadable, command, command_if_any, parted};
use dh_types::Reply;
use std::alloc::{AllocError, Global};
use std::io;
use std::slice::Iter;

// `end`, or so many batches.
fn reach(text: &str) -> Result<Reach, Unreadable> {
    match text {
        "end" => Ok(Reach::End),
        _ => Ok(Reach::Batches(u128::from(text.parse::<u32>()?))),
    }
}

// `closed`, or so many batches.
fn standing(text: &str) -> Result<Option<u128>, Unreadable> {
    match text {
        "closed" => Ok(None),
        _ => Ok(Some(u128::from(text.parse::<u32>()?))),
    }
}

// `REACH,COMMAND`
fn undone(alloc: Global, words: &str) -> Result<Happening, Unreadable> {
    let (far, words) = words.split_once(',').ok_or(Unreadable)?;
    let far = reach(far)?;
    Ok(Happening::Undone(command(alloc, words)?, far))
}

// `STANDING,COMMAND`
fn done(alloc: Global, words: &str) -> Result<Happening, Unreadable> {
    let (count, words) = words.split_once(',').ok_or(Unreadable)?;
    let count = standing(count)?;
    Ok(Happening::Done(command(alloc, words)?, count))
}

// What happens at the words, or nothing where they ask.
fn happening(alloc: Global, words: &str) -> Result<Option<Happening>, Unreadable> {
    if let Some(command) = command_if_any(alloc, words)? {
        return Ok(Some(Happening::Answered(command)));
    }
    let (kind, rest) = words.split_once(',').unwrap_or((words, ""));
    match kind {
        "undone" => undone(alloc, rest).map(Some),
        "done" => done(alloc, rest).map(Some),
        "attached" => Ok(Some(Happening::Attached)),
        "interrupted" => Ok(Some(Happening::RecoveryInterrupted(reach(rest)?))),
        "recovered" => Ok(Some(Happening::Recovered)),
        _ => Ok(None),
    }
}

fn happenings_of(alloc: Global, block: &Block) -> Result<Vec<Happening>, Unreadable> {
    let mut happenings = Vec::new(alloc);
    for line in &block.all {
        let (words, _) = parted(line.as_str());
        if let Some(happening) = happening(alloc, words)? {
            happenings.push(happening)?;
        }
    }
    Ok(happenings)
}

// Plays the happenings from books without a row, of the version of the tables, which stand where those books were.
fn play_all(
    alloc: Global,
    tables: &mut Books,
    happenings: &[Happening],
) -> Result<Vec<Reply>, AllocError> {
    let before = empty(alloc, tables.version());
    let played = play(alloc, before, happenings)?;
    put_back(tables, played.tables);
    Ok(played.replies)
}

// The text of the next reply.
fn next_text(alloc: Global, replies: &mut Iter<'_, Reply>) -> Result<String, AllocError> {
    match replies.next() {
        Some(reply) => reply.to_string(alloc),
        None => "no reply".to_string(alloc),
    }
}

// Whether the words are a command, which has a reply.
fn is_command(alloc: Global, words: &str) -> bool {
    matches!(command_if_any(alloc, words), Ok(Some(_)))
}

// Whether the words tell what happens and is not answered.
fn is_unanswered(words: &str) -> bool {
    let (kind, _) = words.split_once(',').unwrap_or((words, ""));
    matches!(
        kind,
        "undone" | "done" | "attached" | "interrupted" | "recovered"
    )
}

// Compares the reply, where the line is a command.
fn compare_reply(
    rt: &HostRuntime,
    tally: &mut Tally,
    block: &Block,
    replies: &mut Iter<'_, Reply>,
    line: &str,
) -> io::Result<()> {
    let (words, _) = parted(line);
    if !is_command(rt.alloc(), words) {
        return Ok(());
    }
    let got = next_text(rt.alloc(), replies)?;
    compare(rt, tally, block, line, got.as_str())
}

// Compares what the tables are asked in the end.
fn compare_asked(
    rt: &HostRuntime,
    tally: &mut Tally,
    block: &Block,
    tables: &mut Books,
    line: &str,
) -> io::Result<()> {
    let (words, _) = parted(line);
    if is_unanswered(words) || is_command(rt.alloc(), words) {
        return Ok(());
    }
    let got = replies_text(
        rt.alloc(),
        answered(rt.alloc(), Teller::Player, tables, words),
    )?;
    compare(rt, tally, block, line, got.as_str())
}

fn compare_lines(
    rt: &HostRuntime,
    tally: &mut Tally,
    block: &Block,
    tables: &mut Books,
    replies: &mut Iter<'_, Reply>,
) -> io::Result<()> {
    for line in block.before() {
        compare_reply(rt, tally, block, replies, line.as_str())?;
    }
    for line in block.lines() {
        compare_reply(rt, tally, block, replies, line.as_str())?;
        compare_asked(rt, tally, block, tables, line.as_str())?;
    }
    Ok(())
}

/// Plays all commands and happenings of the block, and of those before it, as one list from books without a row. Then it
/// compares the replies, and what the tables are asked.
pub(crate) fn play_list(rt: &HostRuntime, tally: &mut Tally, block: &Block) -> io::Result<()> {
    let Ok(happenings) = happenings_of(rt.alloc(), block) else {
        tally.add(false);
        return println!(rt; "{}: a happening is not read", block.name);
    };
    let mut tables = empty(rt.alloc(), block.version);
    let replies = play_all(rt.alloc(), &mut tables, &happenings)?;
    compare_lines(rt, tally, block, &mut tables, &mut replies.iter())
}
