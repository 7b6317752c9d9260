//! Second runs on a file that a run holds. Behind the lines of a life, a line `second WORDS -> STATUS TEXT` is a run that is made in the
//! middle of the next one of a line `first WORDS -> STATUS TEXT`, as soon as that has printed a line. Both may have an input, as
//! `WORDS < INPUT`. No second run changes the file or its log.

use crate::lives;
use crate::runs::{Deed, LOG, PATH, clear, compare_told, run_letting, run_within};
use dh_test_kit::{Tally, parted};
use std::{fs, io};

// What a run of these words comes to that is made now, and whether it changed the file or its log.
fn tried(rt: &HostRuntime, told: &str) -> io::Result<String> {
    let (file, log) = (fs::read(rt, PATH)?, fs::read(rt, LOG)?);
    let came = run_letting(rt, told)?;
    if fs::read(rt, PATH)?.as_slice() == file.as_slice()
        && fs::read(rt, LOG)?.as_slice() == log.as_slice()
    {
        return Ok(came);
    }
    Ok(format!(in rt.alloc(); "{}, and the file changed", came.as_str())?)
}

// What each of the lines comes to that is tried now.
fn all_tried(rt: &HostRuntime, seconds: &[String]) -> io::Result<Vec<String>> {
    let mut came = Vec::new(rt.alloc());
    for second in seconds {
        let (told, _) = parted(second.as_str());
        came.push(tried(rt, told)?)?;
    }
    Ok(came)
}

// What tries the second runs once a line is printed.
#[derive(Drop)]
struct Holder<'a> {
    rt: &'a HostRuntime,
    seconds: &'a [String],
    came: Vec<String>,
}

impl Deed for Holder<'_> {
    fn follow(&mut self, told: &[u8]) {
        if !self.came.is_empty() || !told.ends_with(b"\n") {
            return;
        }
        if let Ok(came) = all_tried(self.rt, self.seconds) {
            self.came = came;
        }
    }
}

// Compares what each second run came to.
fn judge(
    rt: &HostRuntime,
    tally: &mut Tally,
    seconds: &[String],
    came: &[String],
) -> io::Result<()> {
    for (at, second) in seconds.iter().enumerate() {
        let got = came.get(at).map_or("not tried", |text| text.as_str());
        compare_told(rt, tally, second.as_str(), got)?;
    }
    Ok(())
}

// What a run comes to in whose middle the others are made.
fn held(rt: &HostRuntime, tally: &mut Tally, seconds: &[String], told: &str) -> io::Result<String> {
    let holder = Holder {
        rt,
        seconds,
        came: Vec::new(rt.alloc()),
    };
    let (text, holder) = run_within(rt, told, holder)?;
    judge(rt, tally, seconds, &holder.came)?;
    Ok(text)
}

// Plays a line behind those above it, of which these second runs were not made yet.
fn play_line(
    rt: &HostRuntime,
    tally: &mut Tally,
    seconds: &mut Vec<String>,
    line: &str,
) -> io::Result<()> {
    if let Some(second) = line.strip_prefix("second ") {
        return Ok(seconds.push(second.to_string(rt.alloc())?)?);
    }
    let Some(first) = line.strip_prefix("first ") else {
        return lives::play_line(rt, tally, &mut Vec::new(rt.alloc()), line);
    };
    let (told, _) = parted(first);
    let got = held(rt, tally, seconds, told)?;
    seconds.clear();
    compare_told(rt, tally, line, got.as_str())
}

/// Plays the lines, one after the other, on a path where nothing is.
pub fn play(rt: &HostRuntime, tally: &mut Tally, lines: &str) -> io::Result<()> {
    clear(rt);
    let mut seconds = Vec::new(rt.alloc());
    for line in lines.lines() {
        play_line(rt, tally, &mut seconds, line)?;
    }
    clear(rt);
    Ok(())
}
