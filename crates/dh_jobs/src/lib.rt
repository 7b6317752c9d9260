//! What each subcommand of `letting` does, over any store and on files. Read [`desk_from`] first.
#![tactic(auto)]

mod blank;
mod files;
mod jobs;
mod messages;
mod open_run;
pub mod paths;
mod process;
mod program;
mod remains;
mod service;
mod status;
mod store_jobs;

pub use process::exit_code;
pub use program::{desk, desk_from};
pub use sqlite::{Start, Unknown};
pub use status::{Failure, Status};
