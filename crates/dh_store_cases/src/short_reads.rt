//! Steps under a limit at which whole tables can't be read.

use dh_agency::{Agency, NotOpened, create};
use dh_agency_test_kit::{load_text, reply_line};
use dh_schema::install;
use dh_test_kit::{Tally, compare, january, parted};
use sqlite::{Alter, Connection, MemStore, params};
use std::alloc::{AllocError, Global};
use std::io;

// How many owners there are.
const OWNERS: u32 = 2000;

const LEAST_LIMIT: u64 = 16;

// How often the limit is doubled at most.
const DOUBLINGS: u32 = 40;

// Puts the owners into the tables, and whether it could.
fn put_owners<S: Alter>(alloc: Global, conn: &mut Connection<S>) -> Result<bool, AllocError> {
    let mut is_done = true;
    for number in 0..OWNERS {
        let number = format!(in alloc; "O{number}")?;
        let put = conn.execute(
            "INSERT INTO owner (owner_no, name, address, telephone) VALUES (?1, 'Tom Ray', '2 Low Rd Leeds', '0113 1')",
            params![number.as_str()],
        );
        is_done &= put.is_ok();
    }
    Ok(is_done)
}

// The last limit under which the tables are not read, where they are under its double.
fn limit_found<S: Alter>(
    alloc: Global,
    conn: &mut Connection<S>,
) -> Result<Option<u64>, AllocError> {
    let mut limit = LEAST_LIMIT;
    let mut found = None;
    for _ in 0..DOUBLINGS {
        conn.set_step_limit(Some(limit));
        if load_text(alloc, conn)?.as_str() != "fault 22" {
            return Ok(found);
        }
        found = Some(limit);
        limit = limit.saturating_mul(2);
    }
    Ok(None)
}

fn limit_over<S: Alter>(
    alloc: Global,
    conn: &mut Connection<S>,
) -> Result<Option<u64>, AllocError> {
    if install(alloc, conn, january()).is_err() || !put_owners(alloc, conn)? {
        return Ok(None);
    }
    limit_found(alloc, conn)
}

// The last limit of steps under which tables with so many owners are not read.
fn limit(alloc: Global) -> Result<Option<u64>, AllocError> {
    let mut conn = Connection::open_in_memory(alloc)?;
    let limit = limit_over(alloc, &mut conn);
    drop(conn);
    limit
}

// An agency in memory, none of whose steps takes more of the store.
fn limited(alloc: Global, limit: u64) -> Result<Option<Agency<MemStore>>, AllocError> {
    let mut conn = Connection::open_in_memory(alloc)?;
    conn.set_step_limit(Some(limit));
    match create(alloc, conn, january()) {
        Ok(agency) => Ok(Some(agency)),
        Err(NotOpened { cause: _, conn: _ }) => Ok(None),
    }
}

// Tells the agency its owners, and how many of them it takes.
fn owners_told<S: Alter>(alloc: Global, agency: &mut Agency<S>) -> Result<u32, AllocError> {
    let mut taken: u32 = 0;
    for number in 0..OWNERS {
        let line = format!(in alloc; "owner,O{number},Tom Ray,2 Low Rd Leeds,0113 1")?;
        if reply_line(alloc, agency, line.as_str())?.as_str() == "ok" {
            taken = taken.saturating_add(1);
        }
    }
    Ok(taken)
}

fn compare_lines<S: Alter>(
    rt: &HostRuntime,
    tally: &mut Tally,
    agency: &mut Agency<S>,
    lines: &str,
) -> io::Result<()> {
    for line in lines.lines() {
        let (words, want) = parted(line);
        let got = reply_line(rt.alloc(), agency, words)?;
        compare(rt, tally, words, got.as_str(), want)?;
    }
    Ok(())
}

fn tell<S: Alter>(
    rt: &HostRuntime,
    tally: &mut Tally,
    agency: &mut Agency<S>,
    lines: &str,
) -> io::Result<()> {
    let taken = owners_told(rt.alloc(), agency)?;
    let got = format!(in rt.alloc(); "{taken}")?;
    let want = format!(in rt.alloc(); "{OWNERS}")?;
    compare(rt, tally, "owners", got.as_str(), want.as_str())?;
    compare_lines(rt, tally, agency, lines)
}

// The tables are not read.
fn compare_load<S: Alter>(
    rt: &HostRuntime,
    tally: &mut Tally,
    conn: &mut Connection<S>,
) -> io::Result<()> {
    let got = load_text(rt.alloc(), conn)?;
    compare(
        rt,
        tally,
        "the tables under the limit",
        got.as_str(),
        "fault 22",
    )
}

fn play_under(rt: &HostRuntime, tally: &mut Tally, limit: u64, lines: &str) -> io::Result<()> {
    let Some(mut agency) = limited(rt.alloc(), limit)? else {
        return compare(rt, tally, "an agency under the limit", "none", "one");
    };
    let ended = tell(rt, tally, &mut agency, lines);
    let mut conn = agency.into_store();
    let compared = compare_load(rt, tally, &mut conn);
    drop(conn);
    ended?;
    compared
}

/// Tells the lines to an agency with many owners, under the last limit of steps at which its tables are not read.
pub fn play_short_reads(rt: &HostRuntime, tally: &mut Tally, lines: &str) -> io::Result<()> {
    match limit(rt.alloc())? {
        Some(limit) => play_under(rt, tally, limit, lines),
        None => compare(rt, tally, "a limit of steps", "none", "one"),
    }
}
