//! Records with texts: the line of a copy.

use crate::values::Said;
use dh_test_kit::{Answer, Row, ToLine, Unreadable, row_of};
use std::alloc::{AllocError, Global};

// The line of a copy of the row, for a kind that has copies.
fn copied(alloc: Global, row: &Row) -> Result<String, AllocError> {
    match row {
        Row::Branch(it) => it.try_clone(alloc)?.to_line(alloc),
        Row::Staff(it) => it.try_clone(alloc)?.to_line(alloc),
        Row::Owner(it) => it.try_clone(alloc)?.to_line(alloc),
        Row::Property(it) => it.try_clone(alloc)?.to_line(alloc),
        Row::Client(it) => it.try_clone(alloc)?.to_line(alloc),
        Row::Viewing(it) => it.try_clone(alloc)?.to_line(alloc),
        Row::Inspection(it) => it.try_clone(alloc)?.to_line(alloc),
        _ => "no copies".to_string(alloc),
    }
}

fn copy_line(alloc: Global, words: &str) -> Answer {
    let row = row_of(alloc, words)?;
    Ok(copied(alloc, &row)?)
}

/// Answers a text, where the kind is `copy`: with the line of a copy of the row, or `bad`.
pub fn answer(out: &mut String, alloc: Global, kind: &str, text: &str) -> Said {
    if kind != "copy" {
        return Ok(false);
    }
    match copy_line(alloc, text) {
        Ok(line) => out.push_str(line.as_str())?,
        Err(Unreadable) => out.push_str("bad")?,
    }
    Ok(true)
}
