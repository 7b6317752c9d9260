//! The lives of an agency, with the stops between and within them: as the events that the laws speak of, with the theorem of their
//! histories ([`histories`]), and rehearsed on disks in memory, one of which may stop in the middle of a life ([`rehearse`]).
#![tactic(auto)]

pub mod answers;
pub mod calls;
mod cause;
pub mod crashes;
mod disks;
mod files;
pub mod histories;
mod lives;
mod rehearsals;
mod work;

pub use disks::{MeasuredDisk, Measures, Stopping, copy_of, memory, no_files};
pub use files::{SEED, Unopened, open_on, options};
pub use lives::{Account, Life, Lived, Stop, Which};
pub use rehearsals::{Rehearsed, live_behind, live_through, rehearse, rehearse_behind};
