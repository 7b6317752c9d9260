//! What an agency is asked.

use crate::{EntryDay, EntryMonth, Id, LeaseNo};

/// A question, which changes nothing. It holds nothing that a line can't hold.
#[derive(Clone, Copy, PartialEq, Eq)]
pub enum Question {
    /// All branches.
    Branches,
    /// The properties that no lease covers that day.
    Vacant(EntryDay),
    /// The vacant properties that the client would take.
    Matching(ClientDay),
    /// What a lease was charged and what was paid on it.
    Statement(LeaseNo),
    /// The leases of a branch's properties on which rent is owed.
    Arrears(Id),
    /// The parts of the closed run of a month.
    Run(EntryMonth),
    /// What the run of a month charged on an owner's properties, and what the branches take of it.
    Owner(OwnerMonth),
}

/// A client and a day.
#[derive(Clone, Copy, PartialEq, Eq)]
pub struct ClientDay {
    pub client: Id,
    pub day: EntryDay,
}

/// An owner and a month.
#[derive(Clone, Copy, PartialEq, Eq)]
pub struct OwnerMonth {
    pub owner: Id,
    pub month: EntryMonth,
}
