//! Rent runs.

ghost use Rattle.std.specs.Prelude.{◌≡◌};

use crate::{EntryMonth, Id, Key, LeaseNo, Pence};

/// The rent run of a month. While it is open its count and total are 0.
#[derive(Clone, Copy, PartialEq, Eq)]
pub struct Run {
    pub month: EntryMonth,
    pub key: Key,
    /// How many charges it has.
    pub count: u32,
    /// The sum of their amounts.
    pub total: Pence,
    pub is_closed: bool,
}

impl Run {
    /// The month, which no other run has.
    pub fn key(&self) -> EntryMonth
        ensures { result ≡ self.now.month }
    {
        self.month
    }

    /// What the run comes to.
    pub fn sum(&self) -> RunSum
        ensures { result ≡ record { month = self.now.month; count = self.now.count; total = self.now.total } }
    {
        RunSum {
            month: self.month,
            count: self.count,
            total: self.total,
        }
    }
}

/// What a branch has of a run so far. There is one for a month and a branch.
#[derive(Clone, Copy, PartialEq, Eq, PartialOrd, Ord)]
pub struct Part {
    pub month: EntryMonth,
    pub branch: Id,
    /// The greatest lease that was charged.
    pub through: Option<LeaseNo>,
    pub count: u32,
    pub total: Pence,
}

impl Part {
    /// The month and the branch, which no other part has.
    pub fn key(&self) -> (EntryMonth, Id)
        ensures { result ≡ (self.now.month, self.now.branch) }
    {
        (self.month, self.branch)
    }
}

/// What a closed run comes to.
#[derive(Clone, Copy, Debug, PartialEq, Eq)]
pub struct RunSum {
    pub month: EntryMonth,
    /// How many charges it has.
    pub count: u32,
    /// The sum of their amounts.
    pub total: Pence,
}
