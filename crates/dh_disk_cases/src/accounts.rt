//! The account of lives, compared with the replies that are wanted and with what the plain program makes of them.

use crate::chapters::{Chapter, Mark};
use dh_agency_test_kit::books_text;
use dh_lives::{Account, Lived};
use dh_rules::{Books, Happening, Reach, play};
use dh_test_kit::{Tally, Unreadable, command, compare, january, parted};
use dh_types::{Command, Reply, Version};
use std::alloc::{AllocError, Global};
use std::io;

// Whether the reply is one of those wanted, between which stands ` or `.
fn is_wanted(alloc: Global, reply: Reply, wanted: &str) -> Result<bool, AllocError> {
    let text = reply.to_string(alloc)?;
    for alternative in wanted.split(" or ") {
        if alternative == text.as_str() {
            return Ok(true);
        }
    }
    Ok(false)
}

// Whether each reply is wanted of its line.
fn are_wanted(alloc: Global, lines: &[String], replies: &[Reply]) -> Result<bool, AllocError> {
    for (at, reply) in replies.iter().enumerate() {
        let (_, wanted) = lines.get(at).map_or(("", ""), |line| parted(line.as_str()));
        if !is_wanted(alloc, *reply, wanted)? {
            return Ok(false);
        }
    }
    Ok(true)
}

// Whether a life ends as lives do: with all replies, or where it has a stop at a command that was interrupted, or without a recovery.
fn ends_as_lives_do(chapter: &Chapter, lived: &Lived) -> bool {
    let (count, all) = (lived.replies.len(), chapter.lines.len());
    let has_stop = chapter.mark != Mark::Whole;
    match lived.cut {
        Some(at) => has_stop && lived.recovered && at == count && count < all,
        None if lived.recovered => count == all,
        None => has_stop && count == 0,
    }
}

// Whether each life is told as it should be.
fn are_told(alloc: Global, chapters: &[Chapter], lives: &[Lived]) -> Result<bool, AllocError> {
    for (at, chapter) in chapters.iter().enumerate() {
        let Some(lived) = lives.get(at) else {
            return Ok(false);
        };
        if !ends_as_lives_do(chapter, lived)
            || !are_wanted(alloc, &chapter.lines, &lived.replies)?
        {
            return Ok(false);
        }
    }
    Ok(lives.len() == chapters.len())
}

// What happened to a command: it was answered, or cut and carried out or not; or it was not told.
fn happening_of(command: Command, at: usize, lived: &Lived, is_in: bool) -> Option<Happening> {
    if at < lived.replies.len() {
        return Some(Happening::Answered(command));
    }
    if lived.cut != Some(at) {
        return None;
    }
    if is_in {
        return Some(Happening::Done(command, None));
    }
    Some(Happening::Undone(command, Reach::Batches(0)))
}

fn add_happenings(
    alloc: Global,
    happenings: &mut Vec<Happening>,
    chapter: &Chapter,
    lived: &Lived,
    is_in: bool,
) -> Result<(), Unreadable> {
    happenings.push(if lived.recovered {
        Happening::Recovered
    } else {
        Happening::RecoveryInterrupted(Reach::Batches(0))
    })?;
    for (at, line) in chapter.lines.iter().enumerate() {
        let (words, _) = parted(line.as_str());
        if let Some(happening) = happening_of(command(alloc, words)?, at, lived, is_in) {
            happenings.push(happening)?;
        }
    }
    Ok(())
}

// What happened in all lives.
fn happenings_of(
    alloc: Global,
    chapters: &[Chapter],
    lives: &[Lived],
    is_in: bool,
) -> Result<Vec<Happening>, Unreadable> {
    let mut happenings = Vec::new(alloc);
    for (at, chapter) in chapters.iter().enumerate() {
        if let Some(lived) = lives.get(at) {
            add_happenings(alloc, &mut happenings, chapter, lived, is_in)?;
        }
    }
    Ok(happenings)
}

fn add_replies(alloc: Global, text: &mut String, replies: &[Reply]) -> Result<(), AllocError> {
    for reply in replies {
        text.push_str(reply.to_string(alloc)?.as_str())?;
        text.push_str("\n")?;
    }
    Ok(())
}

// The replies of the plain program and its books in the end, where the command that was interrupted is in, or out.
fn wanted(
    alloc: Global,
    chapters: &[Chapter],
    lives: &[Lived],
    is_in: bool,
) -> Result<String, Unreadable> {
    let happenings = happenings_of(alloc, chapters, lives, is_in)?;
    let start = Books::new(alloc, Version::Second, january(), january());
    let played = play(alloc, start, &happenings)?;
    let mut text = String::new(alloc);
    add_replies(alloc, &mut text, &played.replies)?;
    text.push_str(books_text(alloc, &played.tables)?.as_str())?;
    Ok(text)
}

// The replies of all lives and the books in the end.
fn account_text(alloc: Global, account: &Account) -> Result<String, AllocError> {
    let mut text = String::new(alloc);
    for lived in &account.lives {
        add_replies(alloc, &mut text, &lived.replies)?;
    }
    match &account.books {
        Some(books) => text.push_str(books_text(alloc, books)?.as_str())?,
        None => text.push_str("no books")?,
    }
    Ok(text)
}

fn is_same_life(life: &Lived, other: &Lived) -> bool {
    life.recovered == other.recovered && life.cut == other.cut && life.replies == other.replies
}

/// Whether both accounts are of the same lives and the same books in the end.
pub fn is_same(alloc: Global, account: &Account, other: &Account) -> Result<bool, AllocError> {
    for (at, life) in account.lives.iter().enumerate() {
        let Some(other) = other.lives.get(at) else {
            return Ok(false);
        };
        if !is_same_life(life, other) {
            return Ok(false);
        }
    }
    let is_as_long = account.lives.len() == other.lives.len();
    Ok(is_as_long && account_text(alloc, account)?.as_str() == account_text(alloc, other)?.as_str())
}

// Whether the account is the plain program's, with the command that was interrupted or without it.
fn is_of_the_plain_program(
    alloc: Global,
    chapters: &[Chapter],
    account: &Account,
    told: &str,
) -> Result<bool, Unreadable> {
    let with_it = wanted(alloc, chapters, &account.lives, true)?;
    if told == with_it.as_str() {
        return Ok(true);
    }
    let without_it = wanted(alloc, chapters, &account.lives, false)?;
    Ok(told == without_it.as_str())
}

/// Compares the account: each life is told as it should be; and all replies and the books in the end are the plain program's, in which
/// each command that was answered is carried out, and the one that was interrupted is or is not.
pub fn compare_account(
    rt: &HostRuntime,
    tally: &mut Tally,
    case: &str,
    chapters: &[Chapter],
    account: &Account,
) -> io::Result<()> {
    let got = if are_told(rt.alloc(), chapters, &account.lives)? {
        "told"
    } else {
        "told otherwise"
    };
    compare(rt, tally, case, got, "told")?;
    let told = account_text(rt.alloc(), account)?;
    let got = match is_of_the_plain_program(rt.alloc(), chapters, account, told.as_str()) {
        Ok(true) => "the plain program's",
        Ok(false) => told.as_str(),
        Err(Unreadable) => "not read",
    };
    compare(rt, tally, case, got, "the plain program's")
}
