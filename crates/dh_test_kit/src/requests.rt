//! Lines that an agency is given, read as it reads them.

use crate::Unreadable;
use dh_fields::read_fields;
use dh_types::{Command, Refusal, Request};
use std::alloc::{AllocError, Global};

// The fields between the line's commas.
fn fields_of<'a>(alloc: Global, line: &'a str) -> Result<Vec<&'a [u8]>, AllocError> {
    line.split(',').map(|field| field.as_bytes()).collect(alloc)
}

/// The request that the line is, or none where its first field is no word of a request; an error where another field is bad.
pub fn request_if_any(alloc: Global, line: &str) -> Result<Option<Request>, Unreadable> {
    let fields = fields_of(alloc, line)?;
    match read_fields(alloc, &fields)? {
        Ok(request) => Ok(Some(request)),
        Err(Refusal::BadLine(1)) => Ok(None),
        Err(_) => Err(Unreadable),
    }
}

/// The request that the line is; an error where it is none.
pub fn request(alloc: Global, line: &str) -> Result<Request, Unreadable> {
    request_if_any(alloc, line)?.ok_or(Unreadable)
}

/// The command that the line is, or none where it is something else; an error where it is a command with a bad field.
pub fn command_if_any(alloc: Global, line: &str) -> Result<Option<Command>, Unreadable> {
    match request_if_any(alloc, line)? {
        Some(Request::Command(command)) => Ok(Some(command)),
        _ => Ok(None),
    }
}

/// The command that the line is; an error where it is none.
pub fn command(alloc: Global, line: &str) -> Result<Command, Unreadable> {
    command_if_any(alloc, line)?.ok_or(Unreadable)
}
