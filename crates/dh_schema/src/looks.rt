//! Looks at the tables: rows of one table put into books, and the run that is open. Read [`look`] first.

mod later;
mod one_table;
mod rows;

pub use later::{look_at_later, look_at_lettings, look_later};
pub use one_table::{look, look_at_all};
pub use rows::{find_open_run, months_now, no_rows, no_rows_of};
