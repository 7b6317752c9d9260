//! Records as rows of the tables. Read `Record` first.
#![tactic(auto)]

mod branch;
mod branch_fee;
mod cell;
mod charge;
mod client;
mod ending;
mod inspection;
pub mod laws;
mod lease;
pub mod limits;
mod meta;
mod number;
mod owner;
mod part;
mod part_fee;
mod property;
mod receipt;
mod record;
mod registration;
mod run;
mod staff;
mod viewing;
mod word;

pub use meta::Meta;
pub use number::version_number;
pub use record::Record;
