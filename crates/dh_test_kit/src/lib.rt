//! Scripts of cases, and what their words are.
//!
//! A script is what an office tells its agency, line by line, and what it is answered: a line is words, an arrow ` -> `, and the reply to a
//! command or the answer to a question. [`script`] reads a text as blocks of lines under headings, and a [`Tally`] counts how many cases were
//! played and how many of them differ. Read [`Block`] first.
//!
//! The words are fields between commas, as `rent,P101,650.00` or `show,branches`, which [`request`] reads as an agency does; [`row_of`]
//! reads those of a row of the books, which [`ToLine::to_line`] writes again; [`answer_text`] is the answer to a question, which is asked
//! of a [`copy_of`] the books.
#![tactic(auto)]

mod account_rows;
mod answers;
mod copies;
mod differences;
pub mod ends;
mod escapes;
mod fields;
mod first_month;
mod lists;
mod requests;
mod row_lines;
mod rows;
mod scripts;
mod tally;
mod unreadable;

pub use answers::{answer_text, numbers_of, version_name};
pub use copies::copy_of;
pub use differences::compare;
pub use escapes::{bytes_of, lines_told, spelled};
pub use fields::Fields;
pub use first_month::january;
pub use lists::{add_part, all_lines, lines_of, or_none};
pub use requests::{command, command_if_any, request, request_if_any};
pub use row_lines::ToLine;
pub use rows::{Row, row_of};
pub use scripts::{Block, Manner, blocks_in, parted, script};
pub use tally::Tally;
pub use unreadable::{Answer, Unreadable};
