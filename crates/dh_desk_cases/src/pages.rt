//! Pages with blocks. A block of lines begins with three backticks and `lines`, and the block of their answers with `answers`. With
//! `lines after NAME` the lines of `examples/NAME.csv` come before, and its answers before those of the block. A block of a terminal begins with
//! `console`, where it begins without a file, and with `console, going on` where it goes on with that of the block before.

use crate::consoles::play_console;
use crate::manual::{bytes_of, compare_answers};
use crate::runs::clear;
use dh_test_kit::Tally;
use std::{fs, io};

// Lines, and the answers that are wanted, as far as the page has told them.
#[derive(Drop)]
struct Told {
    lines: Vec<u8>,
    want: Vec<u8>,
}

fn nothing(rt: &HostRuntime) -> Told {
    Told {
        lines: Vec::new(rt.alloc()),
        want: Vec::new(rt.alloc()),
    }
}

// The lines of this example and their answers.
fn told_before(rt: &HostRuntime, example: &str) -> io::Result<Told> {
    let name = format!(in rt.alloc(); "examples/{example}")?;
    Ok(Told {
        lines: bytes_of(rt, name.as_str(), "csv")?,
        want: bytes_of(rt, name.as_str(), "out")?,
    })
}

// Adds the text, and the line feed that ends its last line.
fn add(bytes: &mut Vec<u8>, text: &str) -> io::Result<()> {
    bytes.extend_from_slice(text.as_bytes())?;
    bytes.push(b'\n')?;
    Ok(())
}

fn play_block(
    rt: &HostRuntime,
    tally: &mut Tally,
    told: &mut Told,
    heading: &str,
    text: &str,
) -> io::Result<()> {
    if heading == "answers" {
        add(&mut told.want, text)?;
        return compare_answers(rt, tally, text, &told.lines, &told.want);
    }
    if heading == "console" {
        clear(rt);
        return play_console(rt, tally, text);
    }
    if heading == "console, going on" {
        return play_console(rt, tally, text);
    }
    if heading == "lines" {
        *told = nothing(rt);
        return add(&mut told.lines, text);
    }
    if let Some(example) = heading.strip_prefix("lines after ") {
        *told = told_before(rt, example)?;
        return add(&mut told.lines, text);
    }
    Ok(())
}

/// Plays the blocks of the page.
pub fn play_page(rt: &HostRuntime, tally: &mut Tally, file: &str) -> io::Result<()> {
    let page = fs::read_to_string(rt, file)?;
    let mut told = nothing(rt);
    for part in page.as_str().split("\n```") {
        let (heading, text) = part.split_once('\n').unwrap_or((part, ""));
        play_block(rt, tally, &mut told, heading, text)?;
    }
    clear(rt);
    Ok(())
}
