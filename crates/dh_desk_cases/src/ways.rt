//! The ways in which an agency is told a line.

use crate::forms::{answer_of, request_of};
use dh_agency::Agency;
use dh_agency_test_kit::reply_line as reply_by_call;
use dh_http::serve_one;
use dh_lines::{batch, put_answer_line};
use dh_test_kit::{Unreadable, request, spelled};
use dh_types::{Question, Request};
use sqlite::Alter;
use std::alloc::{AllocError, Global};
use std::str;

/// How an agency is told a line.
#[derive(Clone, Copy, PartialEq, Eq)]
pub enum Way {
    /// By `step` or `show`.
    Call,
    /// By `batch`, as its one line.
    Batch,
    /// By `serve_one`, as a request.
    Request,
}

impl Way {
    /// What it is called by.
    pub fn name(self) -> &'static str {
        match self {
            Way::Call => "by a call",
            Way::Batch => "by a batch",
            Way::Request => "by a request",
        }
    }
}

fn text_of(bytes: &[u8]) -> &str {
    str::from_utf8(bytes).unwrap_or("no text")
}

// The reply in the bytes of the line that is numbered 1.
fn reply_in(alloc: Global, line: &[u8]) -> Result<String, AllocError> {
    let text = text_of(line);
    let text = text.strip_prefix("1 ").unwrap_or(text);
    text.strip_suffix("\n").unwrap_or(text).to_string(alloc)
}

fn answer_to_question<S: Alter>(
    alloc: Global,
    agency: &mut Agency<S>,
    question: &Question,
) -> Result<String, AllocError> {
    match agency.show(alloc, question) {
        Ok(answer) => {
            let mut line = Vec::new(alloc);
            let _ = put_answer_line(&mut line, 1, &answer);
            reply_in(alloc, &line)
        }
        Err(fault) => format!(in alloc; "{fault}"),
    }
}

fn answer_by_call<S: Alter>(
    alloc: Global,
    agency: &mut Agency<S>,
    line: &str,
) -> Result<String, AllocError> {
    let read = request(alloc, line);
    match &read {
        Ok(Request::Question(question)) => answer_to_question(alloc, agency, question),
        _ => reply_by_call(alloc, agency, line),
    }
}

fn answer_by_batch<S: Alter>(
    alloc: Global,
    agency: &mut Agency<S>,
    line: &str,
) -> Result<String, AllocError> {
    let mut reader = line.as_bytes();
    let mut written = Vec::new(alloc);
    let ended = batch(alloc, agency, &mut reader, &mut written);
    let reply = reply_in(alloc, &written)?;
    match ended {
        Ok(_) => Ok(reply),
        Err(_) => format!(in alloc; "fault of the batch: {}", reply.as_str()),
    }
}

fn answer_by_request<S: Alter>(
    alloc: Global,
    agency: &mut Agency<S>,
    line: &str,
) -> Result<String, AllocError> {
    let request = request_of(alloc, line)?;
    let mut reader = request.as_bytes();
    let mut written = Vec::new(alloc);
    match serve_one(alloc, agency, &mut reader, &mut written) {
        Ok(status) => format!(in alloc; "{} {}", status.as_str(), text_of(&written)),
        Err(_) => "fault of the request".to_string(alloc),
    }
}

// The way of the line: that a run is resumed has no form in a batch or a request.
fn way_of(way: Way, line: &str) -> Way {
    if line.starts_with("resume,") {
        return Way::Call;
    }
    way
}

/// What the agency answers to the line in this way: its reply, or the status and the bytes of a request's answer. Each fault begins
/// with that word or has it in its text.
pub fn outcome_line<S: Alter>(
    alloc: Global,
    agency: &mut Agency<S>,
    way: Way,
    line: &str,
) -> Result<String, AllocError> {
    match way_of(way, line) {
        Way::Call => answer_by_call(alloc, agency, line),
        Way::Batch => answer_by_batch(alloc, agency, line),
        Way::Request => answer_by_request(alloc, agency, line),
    }
}

/// The answer that is wanted in this way, where the line gets this reply, whose escapes are read.
pub fn wanted(alloc: Global, way: Way, line: &str, reply: &str) -> Result<String, Unreadable> {
    let reply = spelled(alloc, reply)?;
    if way_of(way, line) != Way::Request {
        return Ok(reply);
    }
    let answer = answer_of(alloc, reply.as_str())?;
    let status = answer.as_str().get(9..12).unwrap_or("no status");
    Ok(format!(in alloc; "{status} {}", answer.as_str())?)
}
