//! Places of new files with which another program meddles. A line `claim THING N over WHAT -> OUTCOME` takes the place at the path where WHAT
//! stands, `nothing` or `an empty file`. Just before call N of the file system, THING is put at the path: `a text`, `a link` or `a folder`.
//! A line `clear THING N over WHAT -> OUTCOME` does so while a place is cleared that was taken and filled. OUTCOME says what came of it,
//! and what stands at the path then.

use crate::runs::{LOG, PATH, clear};
use dh_jobs::paths::NewFile;
use dh_test_kit::{Tally, compare, parted};
use std::alloc::{Allocator, Global};
use std::cell::Cell;
use std::fs::{File, Files, Metadata, OpenOptions};
use std::os::unix::fs::symlink;
use std::path::PathBuf;
use std::{fs, io};

// What another program writes at the path.
const TEXT: &str = "rent";

// Where the link of another program leads.
const TARGET: &str = "no-folder/rent";

// A file that another program has ready.
const READY: &str = "letting.new";

// A runtime that puts a thing at the path just before a call.
#[derive(Drop)]
struct Meddler<'a> {
    rt: &'a HostRuntime,
    thing: &'a str,
    calls: Cell<u32>,
}

// Puts the thing at the path, in the place of the file that is there.
fn put(rt: &HostRuntime, thing: &str) -> io::Result<()> {
    if thing == "a text" {
        fs::write(rt, READY, TEXT)?;
        return fs::rename(rt, READY, PATH);
    }
    let _ = fs::remove_file(rt, PATH);
    if thing == "a link" {
        return symlink(rt, TARGET, PATH);
    }
    fs::create_dir(rt, PATH)
}

impl Meddler<'_> {
    // Counts a call.
    fn meddle(&self) -> io::Result<()> {
        let left = self.calls.get();
        self.calls.set(left.saturating_sub(1));
        if left == 1 {
            put(self.rt, self.thing)?;
        }
        Ok(())
    }
}

impl Alloc for Meddler<'_> {
    type A = Global;

    fn alloc(&self) -> Global {
        self.rt.alloc()
    }
}

impl Files for Meddler<'_> {
    type File = File;

    type Dir = <HostRuntime as Files>::Dir;

    fn open_file(&self, how: &OpenOptions, path: &str) -> io::Result<File> {
        self.meddle()?;
        self.rt.open_file(how, path)
    }

    fn open_dir(&self, path: &str) -> io::Result<<HostRuntime as Files>::Dir> {
        self.rt.open_dir(path)
    }

    fn metadata(&self, path: &str) -> io::Result<Metadata> {
        self.meddle()?;
        self.rt.metadata(path)
    }

    fn symlink_metadata(&self, path: &str) -> io::Result<Metadata> {
        self.meddle()?;
        self.rt.symlink_metadata(path)
    }

    fn copy(&self, from: &str, to: &str) -> io::Result<u64> {
        self.rt.copy(from, to)
    }

    fn rename(&self, from: &str, to: &str) -> io::Result<()> {
        self.rt.rename(from, to)
    }

    fn remove_file(&self, path: &str) -> io::Result<()> {
        self.meddle()?;
        self.rt.remove_file(path)
    }

    fn create_dir(&self, path: &str) -> io::Result<()> {
        self.rt.create_dir(path)
    }

    fn remove_dir(&self, path: &str) -> io::Result<()> {
        self.rt.remove_dir(path)
    }

    fn remove_dir_all<B: Allocator>(&self, alloc: B, path: &str) -> io::Result<()> {
        self.rt.remove_dir_all(alloc, path)
    }

    fn canonicalize<B: Allocator>(&self, alloc: B, path: &str) -> io::Result<PathBuf<B>> {
        self.meddle()?;
        self.rt.canonicalize(alloc, path)
    }
}

// What the file at the path is by its bytes.
fn file_found(rt: &HostRuntime) -> io::Result<&'static str> {
    let bytes = fs::read(rt, PATH)?;
    Ok(if bytes.is_empty() {
        "an empty file"
    } else if bytes.as_slice() == TEXT.as_bytes() {
        "the text"
    } else {
        "another file"
    })
}

// What stands at the path.
fn thing_found(rt: &HostRuntime) -> io::Result<&'static str> {
    let found = match fs::symlink_metadata(rt, PATH) {
        Ok(found) => found,
        Err(_) => return Ok("nothing"),
    };
    if found.is_dir() {
        return Ok("the folder");
    }
    if found.is_symlink() {
        return Ok(if fs::read_link(rt, PATH)?.as_str() == TARGET {
            "the link"
        } else {
            "another link"
        });
    }
    file_found(rt)
}

// What stands at the path, and whether a log lies beside it.
fn found(rt: &HostRuntime) -> io::Result<String> {
    let log = if fs::exists(rt, LOG)? {
        " and a log"
    } else {
        ""
    };
    Ok(format!(in rt.alloc(); "{}{log}", thing_found(rt)?)?)
}

// What comes of taking the place under this runtime.
fn claim_path(rt: &HostRuntime, meddler: &Meddler) -> io::Result<String> {
    match NewFile::claim(meddler, PATH) {
        Ok(new_file) => {
            drop(new_file);
            Ok(format!(in rt.alloc(); "claimed, {}", found(rt)?.as_str())?)
        }
        Err(fault) => Ok(format!(in rt.alloc(); "{fault}, {}", found(rt)?.as_str())?),
    }
}

// What comes of clearing the place under this runtime, behind bytes in the file and in its log.
fn clear_path(rt: &HostRuntime, meddler: &Meddler) -> io::Result<String> {
    let new_file = match NewFile::claim(rt, PATH) {
        Ok(new_file) => new_file,
        Err(fault) => return Ok(format!(in rt.alloc(); "{fault}")?),
    };
    fs::write(rt, PATH, "a page")?;
    fs::write(rt, LOG, "a log with more than the bytes of its head")?;
    new_file.clear(meddler);
    drop(new_file);
    found(rt)
}

// What a line comes to.
fn outcome(rt: &HostRuntime, words: &str) -> io::Result<String> {
    clear(rt);
    let (words, over) = words.split_once(" over ").unwrap_or((words, ""));
    if over == "an empty file" {
        fs::write(rt, PATH, "")?;
    }
    let (does, rest) = words.split_once(' ').unwrap_or((words, ""));
    let (thing, number) = rest.rsplit_once(' ').unwrap_or((rest, ""));
    let meddler = Meddler {
        rt,
        thing,
        calls: Cell::new(number.parse::<u32>().unwrap_or(0)),
    };
    match does {
        "claim" => claim_path(rt, &meddler),
        _ => clear_path(rt, &meddler),
    }
}

/// Plays each line on a path where WHAT stands.
pub fn play(rt: &HostRuntime, tally: &mut Tally, lines: &str) -> io::Result<()> {
    for line in lines.lines() {
        let (words, want) = parted(line);
        let got = outcome(rt, words)?;
        compare(rt, tally, line, got.as_str(), want)?;
    }
    clear(rt);
    Ok(())
}
