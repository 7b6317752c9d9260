//! A batch: each record of an input is carried out or asked, and answered by its line. Read [`batch`] first.
#![tactic(auto)]

mod outcome;
mod records;
mod replies;
mod watched_reader;
mod whole_batch;

pub use outcome::{BatchFault, Summary};
pub use records::Unread;
pub use replies::put_answer_line;
pub use watched_reader::Input;
pub use whole_batch::batch;
