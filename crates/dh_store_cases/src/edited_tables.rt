//! Tables that are not as they were made, or not by us. Each line `OLD ~> NEW; MORE -> WANT` is a case on a store of its own: our
//! tables are made with OLD replaced by NEW in the texts that make them, and more statements are run; what stands before `; ` may be
//! missing. The tables are those of the first version or of the second.

use dh_agency_test_kit::{load_text, version_text};
use dh_ddl::texts::{FIRST, SECOND};
use dh_test_kit::{Tally, compare, parted};
use sqlite::{Alter, Connection};
use std::alloc::{AllocError, Global};
use std::io;

// Makes the tables of these texts, with some words of them replaced.
fn make<S: Alter>(
    alloc: Global,
    conn: &mut Connection<S>,
    texts: &[&str],
    old: &str,
    new: &str,
) -> Result<bool, AllocError> {
    for text in texts {
        let text = text.replace(alloc, old, new)?;
        if conn.execute_batch(text.as_str()).is_err() {
            return Ok(false);
        }
    }
    Ok(true)
}

// What is replaced, by what, and the statements.
fn edit_of(case: &str) -> (&str, &str, &str) {
    let Some((old, rest)) = case.split_once(" ~> ") else {
        return ("no such words", "", case);
    };
    let (new, statements) = rest.split_once("; ").unwrap_or((rest, ""));
    (old, new, statements)
}

// How the tables are read, once they are made and the statements are run.
fn outcome_of<S: Alter>(
    alloc: Global,
    conn: &mut Connection<S>,
    texts: &[&str],
    rows: &str,
    case: &str,
) -> Result<String, AllocError> {
    let (old, new, statements) = edit_of(case);
    if !make(alloc, conn, texts, old, new)? {
        return "not made".to_string(alloc);
    }
    if conn.execute_batch(rows).is_err() || conn.execute_batch(statements).is_err() {
        return "not done".to_string(alloc);
    }
    let number = version_text(alloc, conn)?;
    let books = load_text(alloc, conn)?;
    format!(in alloc; "{number}, {books}")
}

fn answer(alloc: Global, texts: &[&str], rows: &str, case: &str) -> io::Result<String> {
    let mut conn = Connection::open_in_memory(alloc)?;
    let text = outcome_of(alloc, &mut conn, texts, rows, case);
    drop(conn);
    Ok(text?)
}

// Plays each line over the tables of these texts, in which the statements put rows: the version and how many rows are loaded, or why not.
fn play_over(
    rt: &HostRuntime,
    tally: &mut Tally,
    texts: &[&str],
    rows: &str,
    lines: &str,
) -> io::Result<()> {
    for line in lines.lines() {
        let (case, want) = parted(line);
        let got = answer(rt.alloc(), texts, rows, case)?;
        compare(rt, tally, case, got.as_str(), want)?;
    }
    Ok(())
}

/// Plays each line over the tables of the first version.
pub fn play_first(rt: &HostRuntime, tally: &mut Tally, rows: &str, lines: &str) -> io::Result<()> {
    play_over(rt, tally, &FIRST, rows, lines)
}

/// Plays each line over the tables of the second version.
pub fn play_second(rt: &HostRuntime, tally: &mut Tally, rows: &str, lines: &str) -> io::Result<()> {
    play_over(rt, tally, &SECOND, rows, lines)
}
