//! A branch's fee, and the end of a lease, changed in their tables.

use crate::Amend;
use dh_types::{BranchFee, Ending};
use sqlite::types::ValueRef;
use std::alloc::{AllocError, Global};

impl Amend for BranchFee {
    ghost use Rattle.std.specs.Prelude.{◌≤◌};
    ghost use Rattle.dh_values.specs.declared.limits.TheConstants.{MOST_FEE};
    ghost use Rattle.dh_tables.specs.FeeChanges.{branch_fee_amending, branch_fee_is};

    type Record = BranchFee;

    ghost key = { λ q. q.branch };

    ghost amended = { λ q it. record it { fee = q.fee } };

    ghost amending = { branch_fee_amending };

    ghost can_amend = { λ q. q.fee ≤ MOST_FEE };

    fn text() -> &'static str {
        "UPDATE branch_fee SET fee = ?2 WHERE branch_no = ?1"
    }

    fn params(&self, alloc: Global) -> Result<Vec<ValueRef<'_>>, AllocError> {
        [
            ValueRef::Text(self.branch.as_str().as_bytes()),
            ValueRef::Int(i64::from(self.fee.number())),
        ]
        .to_vec(alloc)
    }

    ghost is_amending = { branch_fee_is };
}

impl Amend for Ending {
    ghost use Rattle.dh_tables.specs.FeeChanges.{IsLength, ending_amending, ending_is};

    type Record = Ending;

    ghost key = { λ q. q.lease };

    ghost amended = { λ q it. record it { months = q.months } };

    ghost amending = { ending_amending };

    ghost can_amend = { λ q. IsLength q.months };

    fn text() -> &'static str {
        "UPDATE ending SET months = ?2 WHERE lease_no = ?1"
    }

    fn params(&self, alloc: Global) -> Result<Vec<ValueRef<'_>>, AllocError> {
        [
            ValueRef::Int(i64::from(self.lease.number())),
            ValueRef::Int(i64::from(self.months.number())),
        ]
        .to_vec(alloc)
    }

    ghost is_amending = { ending_is };
}
