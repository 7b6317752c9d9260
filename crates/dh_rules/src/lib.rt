//! The plain program over books in memory, and the machine: what each command does to the books, and what it is answered.
//! Read [`step`] first. [`play`] plays what can happen to an agency's tables: commands that are answered or interrupted, recoveries that end
//! or are interrupted.
#![tactic(auto)]

mod changes;
mod commands;
mod events;
mod machine;
mod recoveries;
mod runs;

pub use changes::apply_change;
pub use commands::{Outcome, answered, interrupted_done};
pub use dh_answers::{answer, balance, decide, matching, vacant};
pub use dh_audit::audit;
pub use dh_books::Books;
pub use dh_leases::{batches, dues};
pub use dh_model::BATCH_SIZE;
pub use events::{Happening, Played, play};
pub use machine::{Stepped, step};
pub use recoveries::{Reach, interrupted_undone, moved, recovered, recovery_interrupted};
