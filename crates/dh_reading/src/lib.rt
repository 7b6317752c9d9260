//! Reading bytes: again where a signal interrupts a read, into a buffer, and as a body of so many bytes. Read [`read_again`] and
//! `specs/Reads.antt` first.
#![tactic(auto)]

mod again;
mod body;
mod buffer;
mod source;
mod unread;

pub use again::{ReaderFailed, read_again};
pub use body::read_body;
pub use buffer::read_more;
pub use source::Source;
pub use unread::Unread;
