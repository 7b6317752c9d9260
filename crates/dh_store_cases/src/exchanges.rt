//! Requests played: read whole and byte by byte, with failures and interrupted calls, and over a listener.

use crate::agencies::{Outcome, agency_behind, serve};
use crate::cases::{Case, Way, end_of, judge, judge_tables};
use crate::mishaps::{play_interrupted, play_reads, play_writes};
use dh_agency_test_kit::tables_of;
use dh_http::serve_one;
use dh_test_kit::Tally;
use dh_test_kit::ends::FailingReader;
use std::io;
use std::io::{Read, Write};
use std::net::{TcpListener, TcpStream};

// How many reads of a byte each the answer waits for at most.
fn reads_of(case: &Case) -> u64 {
    let end = u64::from(case.block.is_to_the_end);
    (case.request.len() as u64).saturating_add(end)
}

// What is wanted where nothing fails.
fn answered<'a>(case: &'a Case) -> Outcome<'a> {
    Outcome {
        end: end_of(&case.answer),
        written: &case.answer,
        replies: case.block.replies.as_str(),
    }
}

fn play_read<R: Read>(
    rt: &HostRuntime,
    tally: &mut Tally,
    case: &Case,
    words: &'static str,
    reader: &mut R,
) -> io::Result<()> {
    let want = answered(case);
    let mut written = Vec::new(rt.alloc());
    let served = serve(rt.alloc(), case.block, want.replies, reader, &mut written)?;
    let got = served.outcome(&written);
    judge(rt, tally, case, Way::of(words), &got, &want)
}

// Reads a byte at a time, and gives how many reads that took.
fn play_slowly(rt: &HostRuntime, tally: &mut Tally, case: &Case) -> io::Result<u64> {
    let most = reads_of(case);
    let mut reader = FailingReader {
        inner: case.request.as_slice(),
        reads: most,
    };
    play_read(rt, tally, case, "a byte at a time", &mut reader)?;
    Ok(most.saturating_sub(reader.reads))
}

// Whether the answer is the reply to a command, which may have changed the tables.
fn is_done(case: &Case) -> bool {
    case.request.starts_with(b"POST ") && end_of(&case.answer) == "200"
}

// The tables behind the request: those before it, except where a command was carried out.
fn play_tables(rt: &HostRuntime, tally: &mut Tally, case: &Case) -> io::Result<String> {
    let mut agency = agency_behind(rt.alloc(), case.block)?;
    let mut reader = case.request.as_slice();
    let mut written = Vec::new(rt.alloc());
    let _ = serve_one(rt.alloc(), &mut agency, &mut reader, &mut written);
    let tables = tables_of(rt.alloc(), agency)?;
    if !is_done(case) {
        let way = Way::of("the tables, whole");
        judge_tables(rt, tally, case, way, tables.as_str(), case.before)?;
    }
    Ok(tables)
}

// Sends the request to a listener, serves the connection, and then reads the answer.
fn play_sent(rt: &HostRuntime, tally: &mut Tally, case: &Case) -> io::Result<()> {
    let want = answered(case);
    let listener = TcpListener::bind(rt, "127.0.0.1:0")?;
    let mut client = TcpStream::connect(rt, listener.local_addr()?)?;
    client.write_all(&case.request)?;
    let (server, _) = listener.accept()?;
    let served = serve(
        rt.alloc(),
        case.block,
        want.replies,
        &mut &server,
        &mut &server,
    )?;
    drop(server);
    let mut answer = Vec::new(rt.alloc());
    client.read_to_end(&mut answer)?;
    let got = served.outcome(&answer);
    judge(rt, tally, case, Way::of("over a listener"), &got, &want)
}

/// Plays the case whole, a byte at a time, with each read and each write failing and interrupted in turn, and over a listener where its
/// block asks for it.
pub fn play_case(rt: &HostRuntime, tally: &mut Tally, case: &Case) -> io::Result<()> {
    let mut whole = case.request.as_slice();
    play_read(rt, tally, case, "whole", &mut whole)?;
    let reads = play_slowly(rt, tally, case)?;
    let after = play_tables(rt, tally, case)?;
    play_reads(rt, tally, case, reads)?;
    play_writes(rt, tally, case, after.as_str())?;
    play_interrupted(rt, tally, case, after.as_str(), reads)?;
    if case.block.is_over_a_listener {
        play_sent(rt, tally, case)?;
    }
    Ok(())
}
