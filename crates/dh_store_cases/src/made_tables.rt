//! The tables made.

use dh_agency_test_kit::{found, install_text, version_text};
use dh_schema::install;
use dh_test_kit::{Tally, compare, january, parted};
use dh_types::Month;
use sqlite::{Alter, Connection};
use std::alloc::{AllocError, Global};
use std::io;

// The version of the tables that are made.
fn version_made<S: Alter>(alloc: Global, conn: &mut Connection<S>) -> Result<String, AllocError> {
    if let Err(fault) = install(alloc, conn, january()) {
        return format!(in alloc; "{}", fault.fault());
    }
    version_text(alloc, conn)
}

fn made_over<S: Alter>(
    alloc: Global,
    conn: &mut Connection<S>,
    before: &str,
) -> Result<String, AllocError> {
    if conn.execute_batch(before).is_err() {
        return "not done".to_string(alloc);
    }
    let first = version_made(alloc, conn)?;
    let again = install_text(alloc, conn, Month::of_number(24301))?;
    let objects = found(
        alloc,
        conn,
        "SELECT name FROM sqlite_schema WHERE type = 'table' OR type = 'view' ORDER BY name",
    )?;
    let rows = found(
        alloc,
        conn,
        "SELECT id, version, first_month, next_month FROM meta",
    )?;
    format!(in alloc; "{first}, {again}: {objects} {rows}")
}

fn made(alloc: Global, before: &str) -> io::Result<String> {
    let mut conn = Connection::open_in_memory(alloc)?;
    let text = made_over(alloc, &mut conn, before);
    drop(conn);
    Ok(text?)
}

/// Plays each line `STATEMENTS -> TEXT`: the tables made in a store in which these statements were run, and made again for another month, how
/// both end, the tables and views of the store, and the rows of meta.
pub fn play(rt: &HostRuntime, tally: &mut Tally, lines: &str) -> io::Result<()> {
    for line in lines.lines() {
        let (before, want) = parted(line);
        let got = made(rt.alloc(), before)?;
        compare(rt, tally, line, got.as_str(), want)?;
    }
    Ok(())
}
