//! Writers that stop in the middle of a text: what they hold then.

use crate::values::Said;
use dh_types::{Month, Refusal, put_refusal};
use std::alloc::{AllocError, Global};
use std::io::Write;
use std::{io, str};

// Takes so many bytes a write at most, and after so many writes fails or takes no byte.
#[derive(Drop)]
struct Stopping {
    taken: Vec<u8>,
    writes: usize,
    most: usize,
    fails: bool,
}

impl Write for Stopping {
    fn write(&mut self, buf: &[u8]) -> io::Result<usize> {
        if self.writes == 0 {
            return if self.fails {
                Err(io::Error::from(io::ErrorKind::BrokenPipe))
            } else {
                Ok(0)
            };
        }
        self.writes -= 1;
        let taken = buf.len().min(self.most);
        self.taken.extend_from_slice(&buf[..taken])?;
        Ok(taken)
    }

    fn flush(&mut self) -> io::Result<()> {
        Ok(())
    }
}

// Writes what is held of `refused 10 2025-01`, and whether the call told of the rest.
fn show_held(out: &mut String, mut writer: Stopping) -> Said {
    let refusal = Refusal::RunOpen(Month::of_number(24300));
    let end = match put_refusal(&mut writer, refusal) {
        Ok(()) => "whole",
        Err(_) => "failed",
    };
    let held = str::from_utf8(&writer.taken).unwrap_or("no text");
    write!(out, "[{held}] {end}")?;
    Ok(true)
}

/// Answers a text such as `5 1`, five writes of a byte at most, where the kind is one of writers.
pub fn show_stopped_writer(out: &mut String, alloc: Global, kind: &str, text: &str) -> Said {
    let (writes, most) = text.split_once(' ').unwrap_or((text, ""));
    let (writes, most) = (writes.parse().unwrap_or(0), most.parse().unwrap_or(0));
    let fails = match kind {
        "failing_writer" => true,
        "full_writer" => false,
        _ => return Ok(false),
    };
    let taken = Vec::new(alloc);
    show_held(
        out,
        Stopping {
            taken,
            writes,
            most,
            fails,
        },
    )
}
