//! The verdict of the tables on a command, from the rows that it looks at. Read [`ask`] first.

mod asked;
mod facts;
mod rows;

pub use asked::ask;
