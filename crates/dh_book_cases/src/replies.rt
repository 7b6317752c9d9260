//! Replies, refusals and faults: their texts, shown and put.

use crate::values::Said;
use dh_types::{
    EntryMonth, Fault, LeaseMonths, LeaseNo, Month, Output, Pence, Progress, ReceiptNo, Refusal,
    Reply, RunSum, put_fault, put_refusal, put_reply,
};
use std::alloc::Global;
use std::fmt::Write;

// Tells where what was put is not what is shown.
fn agree(out: &mut String, put: &[u8], written: Result<(), Output>) -> Said {
    if written.is_err() || out.as_str().as_bytes() != put {
        out.push_str(", but put otherwise")?;
    }
    Ok(true)
}

// The refusal that the word names, with the value behind it.
fn named_refusal(word: &str, value: &str) -> Option<Refusal> {
    Some(match word {
        "taken" => Refusal::Taken,
        "unknown" => Refusal::Unknown(value.parse().ok()?),
        "wrong_branch" => Refusal::WrongBranch,
        "too_many" => Refusal::TooMany,
        "overlap" => Refusal::Overlap(LeaseNo::read(value).ok()?),
        "client_start" => Refusal::ClientStart(LeaseNo::read(value).ok()?),
        "month_posted" => Refusal::MonthPosted(Month::read(value).ok()?),
        "not_next_month" => Refusal::NotNextMonth(Month::read(value).ok()?),
        "key_used" => Refusal::KeyUsed,
        "run_open" => Refusal::RunOpen(Month::read(value).ok()?),
        "deposit_amount" => Refusal::DepositAmount(Pence::read(value).ok()?),
        "deposit_paid" => Refusal::DepositPaid,
        "not_registered" => Refusal::NotRegistered,
        "no_run" => Refusal::NoRun,
        "bad_line" => Refusal::BadLine(value.parse().ok()?),
        "version" => Refusal::Version(value.parse().ok()?),
        "damaged" => Refusal::Damaged(value.parse().ok()?),
        "full" => Refusal::Full,
        "not_shorter" => Refusal::NotShorter(LeaseMonths::read(value).ok()?),
        _ => return None,
    })
}

fn show_refusal(out: &mut String, alloc: Global, refusal: Refusal) -> Said {
    let mut put = Vec::new(alloc);
    let written = put_refusal(&mut put, refusal);
    write!(out, "{refusal}")?;
    agree(out, put.as_slice(), written)
}

fn receipt_no(text: &str) -> Option<ReceiptNo> {
    ReceiptNo::try_of_number(text.parse().ok()?)
}

// How far a run is, as `2025-01 1 2`.
fn progress(text: &str) -> Option<Progress> {
    let (month, counts) = text.split_once(' ')?;
    let (done, of) = counts.split_once(' ')?;
    Some(Progress {
        month: EntryMonth::read(month).ok()?,
        done: done.parse().ok()?,
        of: of.parse().ok()?,
    })
}

// What a run comes to, as `2025-01 3 1425.00`.
fn sum(text: &str) -> Option<RunSum> {
    let (month, totals) = text.split_once(' ')?;
    let (count, total) = totals.split_once(' ')?;
    Some(RunSum {
        month: EntryMonth::read(month).ok()?,
        count: count.parse().ok()?,
        total: Pence::read(total).ok()?,
    })
}

// The reply that the word names, with the value behind it.
fn named_reply(word: &str, value: &str) -> Option<Reply> {
    Some(match word {
        "accepted" => Reply::Accepted,
        "already" => Reply::Already,
        "receipt" => Reply::Receipt(receipt_no(value)?),
        "already_receipt" => Reply::AlreadyReceipt(receipt_no(value)?),
        "opened" => Reply::Opened(EntryMonth::read(value).ok()?),
        "part" => Reply::Progress(progress(value)?),
        "posted" => Reply::Posted(sum(value)?),
        "already_posted" => Reply::AlreadyPosted(sum(value)?),
        "refused" => Reply::Refused(named_refusal(value, "")?),
        _ => return None,
    })
}

// The text of a refusal has `!` behind it.
fn show_reply(out: &mut String, alloc: Global, reply: Reply) -> Said {
    let mut put = Vec::new(alloc);
    let written = put_reply(&mut put, reply);
    write!(out, "{reply}")?;
    agree(out, put.as_slice(), written)?;
    if reply.is_refusal() {
        out.push('!')?;
    }
    Ok(true)
}

fn named_fault(word: &str) -> Option<Fault> {
    match word {
        "memory" => Some(Fault::Memory),
        "store" => Some(Fault::Store),
        "stopped" => Some(Fault::Stopped),
        _ => None,
    }
}

fn show_fault(out: &mut String, alloc: Global, fault: Fault) -> Said {
    let mut put = Vec::new(alloc);
    let written = put_fault(&mut put, fault);
    write!(out, "{fault}")?;
    agree(out, put.as_slice(), written)
}

/// Answers a text that names a reply, a refusal or a fault.
pub fn answer(out: &mut String, alloc: Global, kind: &str, text: &str) -> Said {
    let (word, value) = text.split_once(' ').unwrap_or((text, ""));
    match kind {
        "refusal" => match named_refusal(word, value) {
            Some(refusal) => show_refusal(out, alloc, refusal),
            None => Ok(false),
        },
        "reply" => match named_reply(word, value) {
            Some(reply) => show_reply(out, alloc, reply),
            None => Ok(false),
        },
        "fault" => match named_fault(word) {
            Some(fault) => show_fault(out, alloc, fault),
            None => Ok(false),
        },
        _ => Ok(false),
    }
}
