//! Readers and writers that fail, or that a signal interrupts, at each call in turn, and the tables afterwards. A case is told by its parts,
//! and becomes a text only where it differs.

use crate::lives::tables;
use crate::runs::{LOG, PATH, clear, input_of, run_program};
use dh_test_kit::ends::{FailingReader, FailingWriter, InterruptedReader, InterruptedWriter};
use dh_test_kit::{Tally, parted, spelled};
use std::io::{Read, Write};
use std::{fs, io, str};

// Of the calls of a run on a file every so many is interrupted, since such a run waits for the disk.
const FILE_STEP: usize = 4;

// The status of a run, and what it wrote.
#[derive(Drop)]
struct Ran {
    code: u8,
    output: Vec<u8>,
}

// What a run leaves: its end, the bytes of the file, and its tables.
#[derive(Drop)]
struct Left {
    ran: Ran,
    file: Vec<u8>,
    tables: String,
}

// A line of a block: the call, the status that is wanted if one stands there, the text that is wanted, the file before the call, and what a
// run leaves for each number of records, from none to all.
#[derive(Drop)]
struct CallLine<'a> {
    words: &'a str,
    input: String,
    code: Option<u8>,
    whole: String,
    before: Vec<u8>,
    each: Vec<Left>,
}

// What a case is called.
#[derive(Clone, Copy)]
struct Case<'a> {
    words: &'a str,
    way: &'a str,
    at: usize,
}

impl<'a> CallLine<'a> {
    fn case(&self, way: &'a str, at: usize) -> Case<'a> {
        Case {
            words: self.words,
            way,
            at,
        }
    }
}

// The bytes of the file, none where there is no file.
fn kept(rt: &HostRuntime) -> io::Result<Vec<u8>> {
    if fs::exists(rt, PATH)? {
        return fs::read(rt, PATH);
    }
    Ok(Vec::new(rt.alloc()))
}

fn put_back(rt: &HostRuntime, bytes: &[u8]) -> io::Result<()> {
    clear(rt);
    if bytes.is_empty() {
        return Ok(());
    }
    fs::write(rt, PATH, bytes)
}

// The tables of the file, where there is one: a look at none would make one.
fn standing_tables(rt: &HostRuntime) -> io::Result<String> {
    if fs::exists(rt, PATH)? {
        return Ok(tables(rt)?);
    }
    Ok("no file".to_string(rt.alloc())?)
}

// A run with this reader over the file of these bytes.
fn run_over<R: Read>(
    rt: &HostRuntime,
    before: &[u8],
    words: &str,
    reader: &mut R,
) -> io::Result<Ran> {
    put_back(rt, before)?;
    let mut output = Vec::new(rt.alloc());
    let code = run_program(rt, words, reader, &mut output)?.code();
    Ok(Ran { code, output })
}

// What a run leaves where nothing fails.
fn left_by(rt: &HostRuntime, before: &[u8], words: &str, input: &str) -> io::Result<Left> {
    let mut reader = input.as_bytes();
    Ok(Left {
        ran: run_over(rt, before, words, &mut reader)?,
        file: kept(rt)?,
        tables: standing_tables(rt)?,
    })
}

// Whether the same bytes stand there, with no log beside them.
fn stands_alike(rt: &HostRuntime, left: &Left) -> io::Result<bool> {
    Ok(!fs::exists(rt, LOG)? && kept(rt)?.as_slice() == left.file.as_slice())
}

// Whether the tables are these. They are read where the bytes are others.
fn has_tables(rt: &HostRuntime, left: &Left) -> io::Result<bool> {
    Ok(stands_alike(rt, left)? || standing_tables(rt)?.as_str() == left.tables.as_str())
}

// What runs leave for each number of records. A run without an input has one.
fn each_left(rt: &HostRuntime, before: &[u8], words: &str, input: &str) -> io::Result<Vec<Left>> {
    let mut each = Vec::new(rt.alloc());
    each.push(left_by(rt, before, words, "")?)?;
    let mut begun = String::new(rt.alloc());
    for line in input.lines() {
        begun.push_str(line)?;
        begun.push_str("\n")?;
        each.push(left_by(rt, before, words, begun.as_str())?)?;
    }
    Ok(each)
}

// The line `WORDS < INPUT -> STATUS TEXT` or `WORDS -> STATUS TEXT`, over the file as it stands.
fn line_of<'a>(rt: &HostRuntime, text: &'a str) -> io::Result<CallLine<'a>> {
    let (told, want) = parted(text);
    let (words, input) = told.split_once(" < ").unwrap_or((told, ""));
    let (code, whole) = want.split_once(' ').unwrap_or((want, ""));
    let input = input_of(rt.alloc(), input)?;
    let whole = spelled(rt.alloc(), whole)?;
    let before = kept(rt)?;
    let each = each_left(rt, &before, words, input.as_str())?;
    Ok(CallLine {
        words,
        input,
        code: code.parse().ok(),
        whole,
        before,
        each,
    })
}

// Counts the case, and prints it with the end of its run where that is not the one wanted.
fn note(
    rt: &HostRuntime,
    tally: &mut Tally,
    case: Case<'_>,
    got: &Ran,
    is_as_wanted: bool,
) -> io::Result<()> {
    tally.add(is_as_wanted);
    if is_as_wanted {
        return Ok(());
    }
    let Case { words, way, at } = case;
    let text = str::from_utf8(&got.output).unwrap_or("no text");
    println!(rt; "{words} {way} {at} -> {} {text}", got.code)
}

// Compares how a run ended, what it wrote, and the tables that it leaves.
fn judge(
    rt: &HostRuntime,
    tally: &mut Tally,
    case: Case<'_>,
    got: &Ran,
    want: (Option<u8>, &[u8]),
    left: &Left,
) -> io::Result<()> {
    let is_as_wanted = Some(got.code) == want.0
        && got.output.as_slice() == want.1
        && has_tables(rt, left)?;
    note(rt, tally, case, got, is_as_wanted)
}

// Compares a run with the whole one. There is none where the call never came that was to be interrupted.
fn judge_whole(
    rt: &HostRuntime,
    tally: &mut Tally,
    case: Case<'_>,
    got: Option<&Ran>,
    line: &CallLine,
) -> io::Result<()> {
    let want = (line.code, line.whole.as_str().as_bytes());
    match (line.each.last(), got) {
        (Some(left), Some(got)) => judge(rt, tally, case, got, want, left),
        _ => {
            tally.add(false);
            println!(rt;
                "{} {} {} -> not interrupted",
                case.words, case.way, case.at
            )
        }
    }
}

// Compares what fewer records leave with a beginning of the text that is wanted. Then it plays the line to its end, and compares that with
// the whole.
fn play_whole(rt: &HostRuntime, tally: &mut Tally, line: &CallLine) -> io::Result<()> {
    let whole = line.whole.as_str().as_bytes();
    for (at, left) in line.each.iter().enumerate() {
        let is_begun = whole.starts_with(&left.ran.output);
        note(rt, tally, line.case("of records", at), &left.ran, is_begun)?;
    }
    let left = left_by(rt, &line.before, line.words, line.input.as_str())?;
    judge_whole(rt, tally, line.case("whole", 0), Some(&left.ran), line)
}

// A run that reads so many bytes and then fails: status 3, and what the records leave that were read to their ends.
fn play_read(
    rt: &HostRuntime,
    tally: &mut Tally,
    line: &CallLine,
    reads: usize,
    want: &Left,
) -> io::Result<()> {
    let mut reader = FailingReader {
        inner: line.input.as_bytes(),
        reads: reads as u64,
    };
    let got = run_over(rt, &line.before, line.words, &mut reader)?;
    let end = (Some(3), want.ran.output.as_slice());
    judge(rt, tally, line.case("after reads", reads), &got, end, want)
}

// Whether the call behind so many is interrupted in a run of its own.
fn is_to_interrupt(line: &CallLine, calls: usize) -> bool {
    !line.words.contains("--file") || calls % FILE_STEP == 0
}

// A run whose read behind so many is interrupted.
fn play_interrupted_read(
    rt: &HostRuntime,
    tally: &mut Tally,
    line: &CallLine,
    reads: usize,
) -> io::Result<()> {
    let mut reader = InterruptedReader {
        inner: line.input.as_bytes(),
        calls: (reads as u64).saturating_add(1),
    };
    let ran = run_over(rt, &line.before, line.words, &mut reader)?;
    let got = if reader.calls == 0 { Some(&ran) } else { None };
    let case = line.case("interrupted after reads", reads);
    judge_whole(rt, tally, case, got, line)
}

// Each read in turn fails, and is interrupted, also the one that would find the end.
fn play_each_read(rt: &HostRuntime, tally: &mut Tally, line: &CallLine) -> io::Result<()> {
    for reads in 0..=line.input.len() {
        let read = line.input.as_str().get(..reads).unwrap_or("");
        if let Some(want) = line.each.get(read.matches('\n').count()) {
            play_read(rt, tally, line, reads, want)?;
        }
        if is_to_interrupt(line, reads) {
            play_interrupted_read(rt, tally, line, reads)?;
        }
    }
    Ok(())
}

fn play_line_with_reader(rt: &HostRuntime, tally: &mut Tally, text: &str) -> io::Result<()> {
    let line = line_of(rt, text)?;
    if !line.input.is_empty() {
        play_each_read(rt, tally, &line)?;
    }
    play_whole(rt, tally, &line)
}

/// Plays each line `WORDS < INPUT -> STATUS TEXT` behind those above it, with a reader that gives a byte a read and fails at each read in
/// turn, and with one of which a read is interrupted, each in turn or, on a file, every fourth: then the run is the whole one. A line
/// `WORDS -> STATUS TEXT` is played once.
pub fn play_reader(rt: &HostRuntime, tally: &mut Tally, lines: &str) -> io::Result<()> {
    clear(rt);
    for line in lines.lines() {
        play_line_with_reader(rt, tally, line)?;
    }
    clear(rt);
    Ok(())
}

// What is left where so many bytes can be written: the tables with the record that is being answered.
fn answering(each: &[Left], writes: usize) -> Option<&Left> {
    for left in each {
        if writes < left.ran.output.len() {
            return Some(left);
        }
    }
    None
}

// A run with this writer. How it ends.
fn run_to<W: Write>(rt: &HostRuntime, line: &CallLine, writer: &mut W) -> io::Result<u8> {
    put_back(rt, &line.before)?;
    let mut reader = line.input.as_bytes();
    Ok(run_program(rt, line.words, &mut reader, writer)?.code())
}

// A run whose writer takes so many bytes and then fails: this status, and a beginning of what is wanted.
fn play_write(
    rt: &HostRuntime,
    tally: &mut Tally,
    code: u8,
    line: &CallLine,
    writes: usize,
    want: &Left,
) -> io::Result<()> {
    let mut writer = FailingWriter {
        inner: Vec::new(rt.alloc()),
        writes: writes as u64,
    };
    let got = Ran {
        code: run_to(rt, line, &mut writer)?,
        output: writer.inner,
    };
    let output = want.ran.output.as_slice();
    let end = (Some(code), output.get(..writes).unwrap_or(output));
    judge(
        rt,
        tally,
        line.case("after writes", writes),
        &got,
        end,
        want,
    )
}

// A run whose write behind so many is interrupted.
fn play_interrupted_write(
    rt: &HostRuntime,
    tally: &mut Tally,
    line: &CallLine,
    writes: usize,
) -> io::Result<()> {
    let mut writer = InterruptedWriter {
        inner: Vec::new(rt.alloc()),
        calls: (writes as u64).saturating_add(1),
    };
    let code = run_to(rt, line, &mut writer)?;
    let InterruptedWriter { inner, calls } = writer;
    let ran = Ran {
        code,
        output: inner,
    };
    let got = if calls == 0 { Some(&ran) } else { None };
    let case = line.case("interrupted after writes", writes);
    judge_whole(rt, tally, case, got, line)
}

// Each write in turn fails, and is interrupted.
fn play_each_write(
    rt: &HostRuntime,
    tally: &mut Tally,
    code: u8,
    line: &CallLine,
    count: usize,
) -> io::Result<()> {
    for writes in 0..count {
        if let Some(want) = answering(&line.each, writes) {
            play_write(rt, tally, code, line, writes, want)?;
        }
        if is_to_interrupt(line, writes) {
            play_interrupted_write(rt, tally, line, writes)?;
        }
    }
    Ok(())
}

fn play_line_with_writer(
    rt: &HostRuntime,
    tally: &mut Tally,
    code: u8,
    text: &str,
) -> io::Result<()> {
    let line = line_of(rt, text)?;
    let count = line.each.last().map_or(0, |left| left.ran.output.len());
    play_each_write(rt, tally, code, &line, count)?;
    play_whole(rt, tally, &line)
}

/// Plays each line `WORDS -> STATUS TEXT` or `WORDS < INPUT -> STATUS TEXT` behind those above it, with a writer that takes a byte a write
/// and fails at each write in turn: each run then ends with this status. It plays it too with one of which a write is interrupted, each in
/// turn or, on a file, every fourth: then the run is the whole one.
pub fn play_writer(rt: &HostRuntime, tally: &mut Tally, code: u8, lines: &str) -> io::Result<()> {
    clear(rt);
    for line in lines.lines() {
        play_line_with_writer(rt, tally, code, line)?;
    }
    clear(rt);
    Ok(())
}
