//! Agencies that are told the lines of scripts, and the calls of the layers below them; their rows and books as text, and what differs
//! of their answers: what the cases over stores share. Read `told` first.
#![tactic(auto)]

mod agencies;
mod batches;
mod books;
mod calls;
mod lives;
mod lookups;
mod rows;
mod scripts;
mod sound;
mod tables;

pub use agencies::{in_memory, reply_line, tables_of};
pub use batches::batch_text;
pub use books::books_text;
pub use calls::line_over;
pub use lives::{Lived, SECOND_TO_FIRST, Telling, play_block, play_lives, problem_text, told_next};
pub use rows::{all_rows, found, rows_of};
pub use scripts::{compare_tables, play_in_memory, table_of};
pub use sound::sound_books;
pub use tables::{install_text, load_text, version_text};
