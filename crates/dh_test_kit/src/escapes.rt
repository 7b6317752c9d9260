//! Texts with escapes. An escape is a tilde with what stands behind it: `n` or `r`, or two digits of base 16, for that byte; and
//! `(COUNT TEXT~)` or `(FIRST..LAST TEXT~)` for the text once for each number up to COUNT, or from FIRST to LAST. In such a text `{n}` is
//! the number, `{i}` counts from 1, `{tens}` is the number without its last digit, and `{unit}` that digit.

use crate::Unreadable;
use std::alloc::{AllocError, Global};

// The text of this number, which is the i-th.
fn numbered(alloc: Global, text: &str, number: u32, i: u32) -> Result<String, AllocError> {
    if !text.contains('{') {
        return text.to_string(alloc);
    }
    let whole = number.to_string(alloc)?;
    let place = i.to_string(alloc)?;
    let tens = (number / 10).to_string(alloc)?;
    let unit = (number % 10).to_string(alloc)?;
    text.replace(alloc, "{n}", whole.as_str())?
        .as_str()
        .replace(alloc, "{i}", place.as_str())?
        .as_str()
        .replace(alloc, "{tens}", tens.as_str())?
        .as_str()
        .replace(alloc, "{unit}", unit.as_str())
}

// The texts that a repetition stands for.
fn repeated(alloc: Global, repetition: &str) -> Result<Vec<String>, Unreadable> {
    let (numbers, text) = repetition.split_once(' ').ok_or(Unreadable)?;
    let (first, last) = numbers.split_once("..").unwrap_or(("1", numbers));
    let first = first.parse::<u32>()?;
    let mut texts = Vec::new(alloc);
    for number in first..=last.parse::<u32>()? {
        let i = number.saturating_sub(first).saturating_add(1);
        texts.push(numbered(alloc, text, number, i)?)?;
    }
    Ok(texts)
}

/// The lines that a line of a script stands for: those of a repetition, where it is nothing else.
pub fn lines_told(alloc: Global, line: &str) -> Result<Vec<String>, Unreadable> {
    match line
        .strip_prefix("~(")
        .and_then(|rest| rest.strip_suffix("~)"))
    {
        Some(repetition) => repeated(alloc, repetition),
        None => Ok(vec![in alloc; line.to_string(alloc)?]?),
    }
}

fn put_repeated(alloc: Global, text: &mut String, repetition: &str) -> Result<(), Unreadable> {
    for one in &repeated(alloc, repetition)? {
        text.push_str(one.as_str())?;
    }
    Ok(())
}

// The text with its repetitions written out.
fn spread(alloc: Global, text: &str) -> Result<String, Unreadable> {
    let mut pieces = text.split("~(");
    let mut out = pieces.next().unwrap_or("").to_string(alloc)?;
    for piece in pieces {
        let (repetition, rest) = piece.split_once("~)").ok_or(Unreadable)?;
        put_repeated(alloc, &mut out, repetition)?;
        out.push_str(rest)?;
    }
    Ok(out)
}

// The byte that the text begins with behind a tilde, and what follows it.
fn escaped(text: &str) -> Option<(u8, &str)> {
    match text.get(..1)? {
        "n" => Some((b'\n', text.get(1..)?)),
        "r" => Some((b'\r', text.get(1..)?)),
        _ => {
            let byte = u8::from_str_radix(text.get(..2)?, 16).ok()?;
            Some((byte, text.get(2..)?))
        }
    }
}

/// The bytes of the text, with its escapes read.
pub fn bytes_of(alloc: Global, text: &str) -> Result<Vec<u8>, Unreadable> {
    let text = spread(alloc, text)?;
    let mut parts = text.as_str().split('~');
    let mut bytes = Vec::from_slice(alloc, parts.next().unwrap_or("").as_bytes())?;
    for part in parts {
        let (byte, rest) = escaped(part).ok_or(Unreadable)?;
        bytes.push(byte)?;
        bytes.extend_from_slice(rest.as_bytes())?;
    }
    Ok(bytes)
}

/// The text with its escapes read.
pub fn spelled(alloc: Global, text: &str) -> Result<String, Unreadable> {
    String::from_utf8(bytes_of(alloc, text)?).map_err(|_| Unreadable)
}
