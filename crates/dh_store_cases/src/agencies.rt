//! Requests and records to agencies in memory.

use crate::blocks::Block;
use dh_agency::Agency;
use dh_agency_test_kit::in_memory;
use dh_http::{NetFault, serve_one};
use dh_lines::batch;
use dh_test_kit::parted;
use http::StatusCode;
use sqlite::{Alter, MemStore};
use std::alloc::{AllocError, Global};
use std::io::{Read, Write};
use std::{io, str};

/// How a request ended: the status of its answer, or why it has none.
pub fn end_text(end: Result<StatusCode, NetFault>) -> &'static str {
    match end {
        Ok(status) => status.as_str(),
        Err(NetFault::Closed) => "closed",
        Err(NetFault::Input(_)) => "input failed",
        Err(NetFault::Output(_)) => "output failed",
        Err(NetFault::Memory { acted: _ }) => "no memory",
    }
}

// What the agency replies to records, by the lines of a batch.
fn batched<S: Alter>(alloc: Global, agency: &mut Agency<S>, records: &[u8]) -> Vec<u8> {
    let mut reader = records;
    let mut replies = Vec::new(alloc);
    let _ = batch(alloc, agency, &mut reader, &mut replies);
    replies
}

// What the agency replies to a record, with a slash where a line ends.
fn reply<S: Alter>(
    alloc: Global,
    agency: &mut Agency<S>,
    record: &str,
) -> Result<String, AllocError> {
    let replies = batched(alloc, agency, record.as_bytes());
    let text = str::from_utf8(&replies).unwrap_or("no text");
    let line = text.strip_prefix("1 ").unwrap_or(text);
    line.trim_end().replace(alloc, "\n", "/")
}

// The records of such lines, and what the agency replies to them.
fn replies<S: Alter>(
    alloc: Global,
    agency: &mut Agency<S>,
    lines: &str,
) -> Result<String, AllocError> {
    let mut text = String::new(alloc);
    for line in lines.lines() {
        let (record, _) = parted(line);
        let reply = reply(alloc, agency, record)?;
        text.push_str(record)?;
        text.push_str(" -> ")?;
        text.push_str(reply.as_str())?;
        text.push_str("\n")?;
    }
    Ok(text)
}

/// What came of a request: how it ended, what was written, and what is replied to records afterwards.
#[derive(Clone, Copy)]
pub struct Outcome<'a> {
    pub end: &'a str,
    pub written: &'a [u8],
    pub replies: &'a str,
}

impl Outcome<'_> {
    pub fn is_same(&self, other: &Outcome) -> bool {
        self.end == other.end && self.written == other.written && self.replies == other.replies
    }
}

/// How a request ended, and what is replied to records afterwards.
#[derive(Drop)]
pub struct Served {
    end: &'static str,
    replies: String,
}

impl Served {
    /// With what was written.
    pub fn outcome<'a>(&'a self, written: &'a [u8]) -> Outcome<'a> {
        Outcome {
            end: self.end,
            written,
            replies: self.replies.as_str(),
        }
    }
}

/// A new agency in memory, behind the records of the block.
pub fn agency_behind(alloc: Global, block: &Block) -> io::Result<Agency<MemStore>> {
    let Some(mut agency) = in_memory(alloc)? else {
        return Err(io::ErrorKind::OutOfMemory.into());
    };
    let _before = batched(alloc, &mut agency, block.records.as_bytes());
    Ok(agency)
}

/// The last line of a batch over a new agency: the records of the block, and then this one.
pub fn last_line(alloc: Global, block: &Block, record: &[u8]) -> io::Result<String> {
    let mut records = Vec::new(alloc);
    records.extend_from_slice(block.records.as_bytes())?;
    records.extend_from_slice(record)?;
    let Some(mut agency) = in_memory(alloc)? else {
        return Err(io::ErrorKind::OutOfMemory.into());
    };
    let replies = batched(alloc, &mut agency, &records);
    drop(agency.into_store());
    let text = str::from_utf8(&replies).unwrap_or("no text").trim_end();
    let (_, last) = text.rsplit_once('\n').unwrap_or(("", text));
    Ok(last.to_string(alloc)?)
}

/// Serves a request on a new agency in memory, behind the records of the block, and then asks for the replies.
pub fn serve<R: Read, W: Write>(
    alloc: Global,
    block: &Block,
    wanted_replies: &str,
    reader: &mut R,
    writer: &mut W,
) -> io::Result<Served> {
    let mut agency = agency_behind(alloc, block)?;
    let end = serve_one(alloc, &mut agency, reader, writer);
    let replies = replies(alloc, &mut agency, wanted_replies);
    drop(agency.into_store());
    Ok(Served {
        end: end_text(end),
        replies: replies?,
    })
}
