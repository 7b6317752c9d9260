//! Lives of a path. A line `letting WORDS -> STATUS TEXT` is a run, and so is `letting WORDS < INPUT -> STATUS TEXT` with an input; a run
//! behind `unclosable` has a file that can't be closed, and one behind `moved`, `removed` or `replaced` a file that is so by the first line that it
//! prints. `answer` has what else a line may be.

use crate::moved_files::run_while_changed;
use crate::runs::{LOG, MOVED, PATH, clear, compare_told, run_letting, standing};
use crate::unclosable_files::run_unclosable;
use dh_agency_test_kit::{all_rows, rows_of};
use dh_test_kit::{Tally, parted, spelled};
use sqlite::Connection;
use std::alloc::AllocError;
use std::os::unix::fs::symlink;
use std::{fs, io};

/// Runs statements on the file, as another program would.
pub fn edited(rt: &HostRuntime, statements: &str) -> Result<&'static str, sqlite::Error> {
    let mut conn = Connection::open(rt, PATH)?;
    let done = conn.execute_batch(statements);
    conn.close()?;
    done?;
    Ok("done")
}

/// The rows of all tables of the file.
pub fn tables(rt: &HostRuntime) -> Result<String, AllocError> {
    let Ok(mut conn) = Connection::open(rt, PATH) else {
        return "not opened".to_string(rt.alloc());
    };
    let rows = all_rows(rt.alloc(), &mut conn);
    let _ = conn.close();
    rows
}

// Makes a folder at the path or at its log's, or a link to this place, or a file with this text.
fn made(rt: &HostRuntime, kind: &str, text: &str) -> io::Result<&'static str> {
    match kind {
        "folder" => fs::create_dir(rt, PATH)?,
        "folder-for-log" => fs::create_dir(rt, LOG)?,
        "link" => symlink(rt, text, PATH)?,
        _ => fs::write(rt, PATH, text)?,
    }
    Ok("done")
}

// Writes a log of so many bytes.
fn write_log(rt: &HostRuntime, count: &str) -> io::Result<&'static str> {
    let mut bytes = Vec::new(rt.alloc());
    for _ in 0..count.parse::<u32>().unwrap_or(0) {
        bytes.push(b'0')?;
    }
    fs::write(rt, LOG, &bytes)?;
    Ok("done")
}

// What a line comes to that changes a file or looks at one, which was as it is kept.
fn handled(
    rt: &HostRuntime,
    kept: &mut Vec<u8>,
    kind: &str,
    rest: &str,
) -> io::Result<&'static str> {
    match kind {
        "sql" => Ok(edited(rt, rest).unwrap_or("not done")),
        "write" | "folder" | "folder-for-log" | "link" => made(rt, kind, rest),
        "log" => write_log(rt, rest),
        "back" => {
            fs::rename(rt, MOVED, PATH)?;
            Ok("done")
        }
        "keep" => {
            *kept = fs::read(rt, PATH)?;
            Ok("done")
        }
        "changed" if fs::read(rt, PATH)?.as_slice() == kept.as_slice() => Ok("no"),
        "changed" => Ok("yes"),
        "standing" => standing(rt),
        _ => Ok("no kind"),
    }
}

// What a line comes to, where the file was as it is kept.
fn answer(rt: &HostRuntime, kept: &mut Vec<u8>, kind: &str, rest: &str) -> io::Result<String> {
    let alloc = rt.alloc();
    match kind {
        "letting" => run_letting(rt, rest),
        "unclosable" => run_unclosable(rt, rest),
        "moved" | "removed" | "replaced" => run_while_changed(rt, kind, rest),
        "log-bytes" => Ok(format!(in alloc; "{}", fs::metadata(rt, LOG)?.len())?),
        "leads" => Ok(fs::read_link(rt, PATH)?.into_string()),
        "rows" => Ok(rows_of(tables(rt)?.as_str(), rest).to_string(alloc)?),
        _ => {
            let text = spelled(alloc, rest)?;
            Ok(handled(rt, kept, kind, text.as_str())?.to_string(alloc)?)
        }
    }
}

/// Plays a line behind those above it, where the file was as it is kept.
pub fn play_line(
    rt: &HostRuntime,
    tally: &mut Tally,
    kept: &mut Vec<u8>,
    line: &str,
) -> io::Result<()> {
    let (words, _) = parted(line);
    let (kind, rest) = words.split_once(' ').unwrap_or((words, ""));
    let got = answer(rt, kept, kind, rest)?;
    compare_told(rt, tally, line, got.as_str())
}

/// Plays the lines, one after the other, on a path where nothing is.
pub fn play(rt: &HostRuntime, tally: &mut Tally, lines: &str) -> io::Result<()> {
    clear(rt);
    let mut kept = Vec::new(rt.alloc());
    for line in lines.lines() {
        play_line(rt, tally, &mut kept, line)?;
    }
    clear(rt);
    Ok(())
}
