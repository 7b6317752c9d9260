//! The model of a letting agency: what its books are, what each command does to them, and what each question is answered.
//! The definitions are in specs/; laws say what they owe each other.
#![tactic(auto)]

pub mod batch_laws;
pub mod laws;
mod limits;
pub mod list_laws;
pub mod machine_laws;
mod open_run;
mod rows;

pub use limits::{
    BATCH_SIZE, MANAGED_AT_MOST, day_limits_in_figures, limits_in_figures, value_limits_in_figures,
};
pub use open_run::OpenRun;
pub use rows::{Change, Verdict};
