//! Our tables as the store reads them, how they are made, and which version of them a store has exactly.
#![tactic(auto)]

mod columns;
mod creation;
mod ours;
mod schema_equality;
pub mod texts;

pub use creation::{create_all, create_later};
pub use ours::tables_found;
