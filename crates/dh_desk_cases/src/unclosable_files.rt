//! A file that can't be closed: its log is emptied behind each line that a job prints.

use crate::runs::{Deed, LOG, run_within};
use std::{fs, io};

#[derive(Drop)]
struct LogEmptier<'a> {
    rt: &'a HostRuntime,
}

impl Deed for LogEmptier<'_> {
    fn follow(&mut self, told: &[u8]) {
        if told.ends_with(b"\n") {
            let _ = fs::write(self.rt, LOG, b"");
        }
    }
}

/// The status and the output of a run whose file can't be closed.
pub fn run_unclosable(rt: &HostRuntime, told: &str) -> io::Result<String> {
    let (came, _) = run_within(rt, told, LogEmptier { rt })?;
    Ok(came)
}
