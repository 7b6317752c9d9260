//! Sessions of drawn lines, told to an agency in memory and to the plain program.

use crate::books::compare_books;
use crate::drawn_lines::Draw;
use dh_agency::Agency;
use dh_agency_test_kit::{in_memory, reply_line};
use dh_book_cases::{answer_line as plainly_told, empty};
use dh_leases::whole;
use dh_rules::Books;
use dh_schema::load;
use dh_test_kit::{Tally, compare};
use dh_types::Version;
use sqlite::{Alter, Connection};
use std::alloc::{AllocError, Global};
use std::io;

/// What sessions are drawn from.
#[derive(Clone, Copy)]
pub struct Plan<'a> {
    /// How many sessions there are.
    pub sessions: u32,
    /// The lines that each begins with.
    pub opening: &'a str,
    /// The lines of which each goes on with some.
    pub further: &'a str,
    /// With how many.
    pub count: u32,
}

fn add_opening(
    alloc: Global,
    lines: &mut Vec<String>,
    draw: &mut Draw,
    opening: &str,
) -> Result<(), AllocError> {
    for line in opening.lines() {
        lines.push(draw.line(alloc, line)?)?;
    }
    Ok(())
}

fn add_further(
    alloc: Global,
    lines: &mut Vec<String>,
    draw: &mut Draw,
    further: &str,
    count: u32,
) -> Result<(), AllocError> {
    for _ in 0..count {
        lines.push(draw.any_line(alloc, further)?)?;
    }
    Ok(())
}

// The lines of a session.
fn session(alloc: Global, draw: &mut Draw, plan: Plan<'_>) -> Result<Vec<String>, AllocError> {
    let mut lines = Vec::new(alloc);
    add_opening(alloc, &mut lines, draw, plan.opening)?;
    add_further(alloc, &mut lines, draw, plan.further, plan.count)?;
    Ok(lines)
}

// Tells both the lines, and compares what they answer.
fn tell<S: Alter>(
    rt: &HostRuntime,
    tally: &mut Tally,
    agency: &mut Agency<S>,
    books: &mut Books,
    replies: &mut String,
    lines: &[String],
) -> io::Result<()> {
    for line in lines {
        let got = reply_line(rt.alloc(), agency, line.as_str())?;
        let want = plainly_told(rt.alloc(), books, line.as_str())?;
        replies.push_str(want.as_str())?;
        replies.push_str("\n")?;
        compare(rt, tally, line.as_str(), got.as_str(), want.as_str())?;
    }
    Ok(())
}

// Compares the books that are loaded from the store, with their open run made to its end, as the machine's are.
fn compare_tables<S: Alter>(
    rt: &HostRuntime,
    tally: &mut Tally,
    conn: &mut Connection<S>,
    wanted: &Books,
) -> io::Result<()> {
    match load(rt.alloc(), conn) {
        Ok(found) => compare_books(rt, tally, &whole(rt.alloc(), found)?, wanted),
        Err(_) => compare(rt, tally, "tables", "not loaded", "loaded"),
    }
}

// Tells the lines to an agency in memory and to the plain program, whose books are given.
fn tell_both(
    rt: &HostRuntime,
    tally: &mut Tally,
    books: &mut Books,
    replies: &mut String,
    lines: &[String],
) -> io::Result<()> {
    let Some(mut agency) = in_memory(rt.alloc())? else {
        return compare(rt, tally, "an agency in memory", "none", "one");
    };
    let ended = tell(rt, tally, &mut agency, books, replies, lines);
    let mut conn = agency.into_store();
    let compared = compare_tables(rt, tally, &mut conn, books);
    drop(conn);
    ended?;
    compared
}

fn play_session(
    rt: &HostRuntime,
    tally: &mut Tally,
    replies: &mut String,
    lines: &[String],
) -> io::Result<()> {
    let mut books = empty(rt.alloc(), Version::Second);
    tell_both(rt, tally, &mut books, replies, lines)
}

/// Plays the sessions, and answers the replies of the plain program, each between line feeds.
pub fn play_sessions(rt: &HostRuntime, tally: &mut Tally, plan: Plan<'_>) -> io::Result<String> {
    let mut draw = Draw::new();
    let mut replies = "\n".to_string(rt.alloc())?;
    for _ in 0..plan.sessions {
        let lines = session(rt.alloc(), &mut draw, plan)?;
        play_session(rt, tally, &mut replies, &lines)?;
    }
    Ok(replies)
}
