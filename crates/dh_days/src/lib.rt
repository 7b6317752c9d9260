//! Days and months of the calendar, and those of them that a line can spell.
//! Read `Day` first: `plus_months` is what leases rest on.
#![tactic(auto)]

mod day;
mod entry_day;
mod entry_month;
pub mod laws;
pub mod limits;
mod month;

pub use day::Day;
pub use entry_day::EntryDay;
pub use entry_month::EntryMonth;
pub use month::Month;
