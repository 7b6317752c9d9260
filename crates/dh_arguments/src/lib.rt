//! What the words behind `letting` ask for. Read `Job` first, then `Words` and `job`.
#![tactic(auto)]

mod commands;
mod jobs;
mod options;
mod ports;
mod questions;
mod typed_words;
mod words;

pub use jobs::{BadWords, Job};
pub use ports::most_port_in_figures;
pub use typed_words::Words;
pub use words::job;
