//! Blocks of a terminal. Behind `$ ` stands a call of `./letting`, with `<FILE` behind it for its input or `echo LINE | ` before it, and with
//! `; echo $?` where its exit status is printed too. The lines up to the next call are what it prints.

use crate::runs::run_program;
use dh_test_kit::{Tally, compare};
use std::{fs, io, str};

// A call as it is typed.
#[derive(Clone, Copy)]
struct Call<'a> {
    words: &'a str,
    input: Input<'a>,
    with_status: bool,
}

#[derive(Clone, Copy)]
enum Input<'a> {
    Nothing,
    Line(&'a str),
    File(&'a str),
}

// The call without its input.
fn parted(text: &str) -> (&str, Input<'_>) {
    if let Some(rest) = text.strip_prefix("echo ") {
        let (line, call) = rest.split_once(" | ").unwrap_or((rest, ""));
        return (call, Input::Line(line));
    }
    match text.split_once(" <") {
        Some((call, file)) => (call, Input::File(file)),
        None => (text, Input::Nothing),
    }
}

fn call_of(text: &str) -> Call<'_> {
    let call = text.strip_suffix("; echo $?");
    let (words, input) = parted(call.unwrap_or(text));
    Call {
        words: words.strip_prefix("./letting ").unwrap_or(""),
        input,
        with_status: call.is_some(),
    }
}

fn input_of(rt: &HostRuntime, input: Input<'_>) -> io::Result<Vec<u8>> {
    let mut bytes = Vec::new(rt.alloc());
    match input {
        Input::Nothing => {}
        Input::Line(line) => {
            bytes.extend_from_slice(line.as_bytes())?;
            bytes.push(b'\n')?;
        }
        Input::File(file) => return fs::read(rt, file),
    }
    Ok(bytes)
}

// What the terminal shows of the call.
fn shown(rt: &HostRuntime, call: Call<'_>) -> io::Result<Vec<u8>> {
    let input = input_of(rt, call.input)?;
    let mut reader = input.as_slice();
    let mut out = Vec::new(rt.alloc());
    let status = run_program(rt, call.words, &mut reader, &mut out)?;
    if call.with_status {
        let code = format!(in rt.alloc(); "{}\n", status.code())?;
        out.extend_from_slice(code.as_bytes())?;
    }
    Ok(out)
}

/// Plays the calls of a block, one after the other, on the file that is there.
pub fn play_console(rt: &HostRuntime, tally: &mut Tally, block: &str) -> io::Result<()> {
    for part in block.strip_prefix("$ ").unwrap_or(block).split("\n$ ") {
        let (call, want) = part.split_once('\n').unwrap_or((part, ""));
        let out = shown(rt, call_of(call))?;
        let got = str::from_utf8(&out).unwrap_or("no text");
        compare(rt, tally, call, got.strip_suffix("\n").unwrap_or(got), want)?;
    }
    Ok(())
}
