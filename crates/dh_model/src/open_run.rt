//! A rent run that is under way.

use dh_types::EntryMonth;

/// The month of an open run, and how many of its batches are done.
#[derive(Clone, Copy, PartialEq, Eq)]
pub struct OpenRun {
    pub month: EntryMonth,
    pub done: u128,
}
