//! A file that is moved, removed or replaced behind the first line that a job prints.

use crate::runs::{Deed, MOVED, PATH, run_within};
use std::{fs, io};

// Moves the file, removes it, or puts another one in its place.
fn change(rt: &HostRuntime, kind: &str) -> io::Result<()> {
    match kind {
        "moved" => fs::rename(rt, PATH, MOVED),
        "removed" => fs::remove_file(rt, PATH),
        _ => {
            fs::write(rt, MOVED, "rent")?;
            fs::rename(rt, MOVED, PATH)
        }
    }
}

// What changes the file that stands at the path, once a line is printed.
#[derive(Drop)]
struct Mover<'a> {
    rt: &'a HostRuntime,
    kind: &'a str,
    is_changed: bool,
}

impl Deed for Mover<'_> {
    fn follow(&mut self, told: &[u8]) {
        if !self.is_changed && told.ends_with(b"\n") {
            self.is_changed = change(self.rt, self.kind).is_ok();
        }
    }
}

/// The status and the output of a run of `WORDS < INPUT` or `WORDS`, whose file is `moved`, `removed` or `replaced`.
pub fn run_while_changed(rt: &HostRuntime, kind: &str, told: &str) -> io::Result<String> {
    let mover = Mover {
        rt,
        kind,
        is_changed: false,
    };
    let (came, _) = run_within(rt, told, mover)?;
    Ok(came)
}
