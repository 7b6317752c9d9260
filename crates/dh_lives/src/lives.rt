//! The lives that are played, and the account of them.

use dh_books::Books;
use dh_types::{Command, Reply};

/// What an agency is told between two power cuts, and the stop that comes within it, where one does.
#[derive(Drop)]
pub struct Life {
    pub commands: Vec<Command>,
    pub stop: Option<Stop>,
}

/// A file that stops in the middle of a life: each call after the first `after` fails.
#[derive(Clone, Copy)]
pub struct Stop {
    pub file: Which,
    pub after: u32,
}

/// One of the two files.
#[derive(Clone, Copy, PartialEq, Eq)]
pub enum Which {
    Database,
    Journal,
}

/// What came of a life.
#[derive(Drop)]
pub struct Lived {
    /// Whether its recovery returned. Where it did not, no command was told.
    pub recovered: bool,
    /// The replies to its commands, in their order.
    pub replies: Vec<Reply>,
    /// The command that was interrupted, counted from 0.
    pub cut: Option<usize>,
}

/// What came of all lives.
#[derive(Drop)]
pub struct Account {
    pub lives: Vec<Lived>,
    /// The books in the end, where the last life had no stop; those that are made first, where there is no life.
    pub books: Option<Books>,
}
