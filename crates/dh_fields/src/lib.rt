//! The lines that an agency is given, and the request that each is.
#![tactic(auto)]

mod commands;
pub mod laws;
mod leases;
mod line;
mod people;
mod properties;
mod questions;
mod reader;
mod unread;
mod values;

pub use reader::{read_fields, read_line, read_question};
