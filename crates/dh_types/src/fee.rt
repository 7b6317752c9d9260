//! What the agency takes of the rents.

ghost use Rattle.std.specs.Prelude.{◌≡◌};

use crate::{EntryMonth, Fee, Id, Pence};

/// The present fee of a branch, in hundredths of a percent of each rent. A branch that has none takes nothing.
#[derive(Clone, Copy, PartialEq, Eq)]
pub struct BranchFee {
    pub branch: Id,
    pub fee: Fee,
}

impl BranchFee {
    /// The branch, which no other fee has.
    pub fn key(&self) -> Id
        ensures { result ≡ self.now.branch }
    {
        self.branch
    }
}

/// What a branch takes of a run so far, by the fee that it had as the run was opened. There is one for a month and a branch.
#[derive(Clone, Copy, PartialEq, Eq, PartialOrd, Ord)]
pub struct PartFee {
    pub month: EntryMonth,
    pub branch: Id,
    pub fee: Fee,
    /// The sum of the fees of its charges.
    pub total: Pence,
}

impl PartFee {
    /// The month and the branch, which no other part's fee has.
    pub fn key(&self) -> (EntryMonth, Id)
        ensures { result ≡ (self.now.month, self.now.branch) }
    {
        (self.month, self.branch)
    }
}
