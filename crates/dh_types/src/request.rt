//! What a line asks for.

use crate::{Command, Question};

/// The command or the question that a line is.
#[derive(Drop)]
pub enum Request {
    /// Something is to be done.
    Command(Command),
    /// Something is to be shown.
    Question(Question),
}
