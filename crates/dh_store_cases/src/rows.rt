//! Rows and the records that they are.

use dh_rows::{Meta, Record};
use dh_test_kit::{Row as Words, Tally, ToLine, Unreadable, compare, parted, row_of};
use dh_types::{
    Branch, BranchFee, Charge, Client, Ending, Inspection, Lease, Owner, Part, PartFee, Property,
    Receipt, Registration, Run, Staff, Version, Viewing,
};
use sqlite::types::ValueRef;
use sqlite::{Alter, Connection, Row};
use std::alloc::{AllocError, Global};
use std::io;

// The fields of the record that the row is.
fn read<R: Record + ToLine + Drop>(alloc: Global, row: &Row) -> Result<String, AllocError> {
    match R::from_row(alloc, row)? {
        Some(record) => record.to_line(alloc),
        None => "none".to_string(alloc),
    }
}

// The numbers of the months that the row is, and of which version it is where that is not the second.
fn months_text(alloc: Global, months: Meta) -> Result<String, AllocError> {
    let (first, next) = (months.first().number(), months.next().number());
    match months.version() {
        Version::First => format!(in alloc; "{first} {next} of the first version"),
        Version::Second => format!(in alloc; "{first} {next}"),
    }
}

fn months(alloc: Global, row: &Row) -> Result<String, AllocError> {
    match Meta::from_row(alloc, row)? {
        Some(months) => months_text(alloc, months),
        None => "none".to_string(alloc),
    }
}

fn row_as(alloc: Global, kind: &str, row: &Row) -> Result<String, AllocError> {
    match kind {
        "branch" => read::<Branch>(alloc, row),
        "staff" => read::<Staff>(alloc, row),
        "owner" => read::<Owner>(alloc, row),
        "property" => read::<Property>(alloc, row),
        "client" => read::<Client>(alloc, row),
        "registration" => read::<Registration>(alloc, row),
        "viewing" => read::<Viewing>(alloc, row),
        "inspection" => read::<Inspection>(alloc, row),
        "lease" => read::<Lease>(alloc, row),
        "ending" => read::<Ending>(alloc, row),
        "charge" => read::<Charge>(alloc, row),
        "receipt" => read::<Receipt>(alloc, row),
        "run" => read::<Run>(alloc, row),
        "part" => read::<Part>(alloc, row),
        "branch fee" => read::<BranchFee>(alloc, row),
        "part fee" => read::<PartFee>(alloc, row),
        "meta" => months(alloc, row),
        _ => "no kind".to_string(alloc),
    }
}

fn one_row<S: Alter>(conn: &mut Connection<S>, sql: &str, values: &[ValueRef<'_>]) -> Option<Row> {
    conn.query_row(sql, values).ok()
}

// What the one row of the query is of this kind.
fn read_as<S: Alter>(
    alloc: Global,
    conn: &mut Connection<S>,
    kind: &str,
    sql: &str,
) -> Result<String, AllocError> {
    match one_row(conn, sql, &[]) {
        Some(row) => row_as(alloc, kind, &row),
        None => "no row".to_string(alloc),
    }
}

// `SELECT ?1, ?2` for two.
fn selecting(alloc: Global, count: usize) -> Result<String, AllocError> {
    let mut sql = "SELECT ?1".to_string(alloc)?;
    for place in 1..count {
        let place = place.saturating_add(1);
        sql.push_str(format!(in alloc; ", ?{place}")?.as_str())?;
    }
    Ok(sql)
}

fn back<R: Record + ToLine + Drop, S: Alter>(
    alloc: Global,
    conn: &mut Connection<S>,
    record: &R,
) -> Result<String, AllocError> {
    let day = record.day_bytes(alloc)?;
    let values = record.to_row(alloc, &day)?;
    let sql = selecting(alloc, values.len())?;
    match one_row(conn, sql.as_str(), &values) {
        Some(row) => read::<R>(alloc, &row),
        None => "no row".to_string(alloc),
    }
}

fn row_back<S: Alter>(
    alloc: Global,
    conn: &mut Connection<S>,
    words: &Words,
) -> Result<String, AllocError> {
    match words {
        Words::Branch(it) => back(alloc, conn, it),
        Words::Staff(it) => back(alloc, conn, it),
        Words::Owner(it) => back(alloc, conn, it),
        Words::Property(it) => back(alloc, conn, it),
        Words::Client(it) => back(alloc, conn, it),
        Words::Registration(it) => back(alloc, conn, it),
        Words::Viewing(it) => back(alloc, conn, it),
        Words::Inspection(it) => back(alloc, conn, it),
        Words::Lease(it) => back(alloc, conn, it),
        Words::Ending(it) => back(alloc, conn, it),
        Words::Charge(it) => back(alloc, conn, it),
        Words::Receipt(it) => back(alloc, conn, it),
        Words::Run(it) => back(alloc, conn, it),
        Words::Part(it) => back(alloc, conn, it),
        Words::BranchFee(it) => back(alloc, conn, it),
        Words::PartFee(it) => back(alloc, conn, it),
        Words::Next(_) => "no record".to_string(alloc),
    }
}

// The record that the words are, made a row and read back.
fn through<S: Alter>(
    alloc: Global,
    conn: &mut Connection<S>,
    words: &str,
) -> Result<String, AllocError> {
    match row_of(alloc, words) {
        Ok(row) => row_back(alloc, conn, &row),
        Err(Unreadable) => "not read".to_string(alloc),
    }
}

fn read_alone(alloc: Global, kind: &str, sql: &str) -> io::Result<String> {
    let mut conn = Connection::open_in_memory(alloc)?;
    let text = read_as(alloc, &mut conn, kind, sql);
    drop(conn);
    Ok(text?)
}

fn through_alone(alloc: Global, words: &str) -> io::Result<String> {
    let mut conn = Connection::open_in_memory(alloc)?;
    let text = through(alloc, &mut conn, words);
    drop(conn);
    Ok(text?)
}

/// Plays each line `QUERY -> RECORD`: what the one row of the query is, read as this kind.
pub fn play_rows(rt: &HostRuntime, tally: &mut Tally, kind: &str, lines: &str) -> io::Result<()> {
    for line in lines.lines() {
        let (sql, want) = parted(line);
        let got = read_alone(rt.alloc(), kind, sql)?;
        compare(rt, tally, sql, got.as_str(), want)?;
    }
    Ok(())
}

/// Plays each line `WORDS -> RECORD`: what the row of the books with these words is, once it was made a row and read back.
pub fn play_records(rt: &HostRuntime, tally: &mut Tally, lines: &str) -> io::Result<()> {
    for line in lines.lines() {
        let (words, want) = parted(line);
        let got = through_alone(rt.alloc(), words)?;
        compare(rt, tally, words, got.as_str(), want)?;
    }
    Ok(())
}
