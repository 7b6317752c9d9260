//! The agency's tables: how they are made, what their rows mean, and how they are read and written: all of them ([`install`],
//! [`load`]), rows of a table put into books ([`look`]), the run that is open ([`find_open_run`]), and one change in one transaction
//! ([`apply`]). Whatever reads rows for a command, a question or a run does so by [`look`].
#![tactic(auto)]

mod all_tables;
mod by_key;
mod changes;
mod creation;
mod fault;
mod file_version;
mod keys;
mod laws;
mod load_fault;
mod loaded_books;
mod looks;
mod transaction;

pub use by_key::{KeyedRecord, find};
pub use changes::apply;
pub use creation::install;
pub use fault::{StoreFault, fault_of};
pub use file_version::FileVersion;
pub use laws::{
    books_are_keyed, first_breaks_no_later_rule, order_has_values, sound_tables_show_their_run,
};
pub use load_fault::LoadFault;
pub use loaded_books::{load, load_1, load_tables, version};
pub use looks::{
    find_open_run, look, look_at_all, look_at_later, look_at_lettings, look_later, months_now,
    no_rows, no_rows_of,
};
pub use transaction::{Put, commit};
