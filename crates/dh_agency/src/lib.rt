//! The one state that the upper layers use: an agency over a store.
#![tactic(auto)]

mod agency;
mod attachment;
mod commands;
mod creation;
mod first_version;
mod requests;

pub use agency::Agency;
pub use attachment::{attach, recover};
pub use creation::{NotOpened, create};
pub use dh_laws::{commutation, lives as laws};
pub use dh_runs::{Problem, RunState};
pub use dh_schema::fault_of;
pub use first_version::{migrate, recover_1};
pub use requests::{Response, respond};
