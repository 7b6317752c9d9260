//! The error of a script.

use dh_types::BadText;
use std::alloc::{AllocError, AllocFailed};
use std::io;
use std::num::ParseIntError;

/// A line that can't be read, or want of memory.
#[derive(Debug, Drop)]
pub struct Unreadable;

/// What a line comes to, as text.
pub type Answer = Result<String, Unreadable>;

impl From<AllocError> for Unreadable {
    fn from(_error: AllocError) -> Unreadable {
        Unreadable
    }
}

impl<T: Drop> From<AllocFailed<T>> for Unreadable {
    fn from(_error: AllocFailed<T>) -> Unreadable {
        Unreadable
    }
}

impl From<ParseIntError> for Unreadable {
    fn from(_error: ParseIntError) -> Unreadable {
        Unreadable
    }
}

impl From<BadText> for Unreadable {
    fn from(_error: BadText) -> Unreadable {
        Unreadable
    }
}

impl From<Unreadable> for io::Error {
    fn from(_error: Unreadable) -> io::Error {
        io::ErrorKind::InvalidData.into()
    }
}
