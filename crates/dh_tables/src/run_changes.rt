//! A run that is closed, and a part of a run that goes on, with its fee, changed in their tables.

ghost use Rattle.std.specs.Prelude.{◌≡◌, ◌≤◌, pos, true};
ghost use Rattle.sqlite_value.specs.Value.{owned};
ghost use Rattle.sqlite_value.specs.declared.value.Value.TheVariants.{Int};
ghost use Rattle.sqlite.specs.Values.{bound_value};
ghost use Rattle.dh_values.specs.declared.limits.TheConstants.{MOST_PENCE};
ghost use Rattle.dh_rows.specs.Cells.{is_through_cell, through_value};

use crate::Amend;
use dh_types::{LeaseNo, Part, PartFee, Pence, Run, RunSum};
use sqlite::types::ValueRef;
use std::alloc::{AllocError, Global};

// Money of any amount.
fn money(amount: Pence) -> ValueRef<'static>
    ensures value { bound_value (owned result) ≡ Int (pos amount) }
    ensures range { amount ≤ MOST_PENCE }
{
    ValueRef::Int(amount.pence() as i64)
}

// The number of the lease, or 0 where there is none.
fn through(lease: Option<LeaseNo>) -> ValueRef<'static>
    ensures value { bound_value (owned result) ≡ through_value lease }
    ensures known { is_through_cell (through_value lease) ≡ true }
{
    match lease {
        Some(lease) => ValueRef::Int(i64::from(lease.number())),
        None => ValueRef::Int(0),
    }
}

impl Amend for RunSum {
    ghost use Rattle.std.specs.Prelude.{true};
    ghost use Rattle.dh_tables.specs.RunChanges.{AreSums, closing, closing_is};

    type Record = Run;

    ghost key = { λ q. q.month };

    ghost amended = { λ q r. record r { count = q.count; total = q.total; is_closed = true } };

    ghost amending = { closing };

    ghost can_amend = { λ q. AreSums q.count q.total };

    fn text() -> &'static str {
        "UPDATE run SET due_count = ?2, due_total = ?3, closed = 1 WHERE month = ?1"
    }

    fn params(&self, alloc: Global) -> Result<Vec<ValueRef<'_>>, AllocError> {
        [
            ValueRef::Int(i64::from(self.month.number())),
            ValueRef::Int(i64::from(self.count)),
            money(self.total),
        ]
        .to_vec(alloc)
    }

    ghost is_amending = { closing_is };
}

impl Amend for Part {
    ghost use Rattle.dh_tables.specs.RunChanges.{IsPart, part_amending, part_is};

    type Record = Part;

    ghost key = { λ q. (q.month, q.branch) };

    ghost amended = { λ q p. record p { through = q.through; count = q.count; total = q.total } };

    ghost amending = { part_amending };

    ghost can_amend = { IsPart };

    fn text() -> &'static str {
        "UPDATE part SET through_lease = ?3, due_count = ?4, due_total = ?5 WHERE month = ?1 AND branch_no = ?2"
    }

    fn params(&self, alloc: Global) -> Result<Vec<ValueRef<'_>>, AllocError> {
        [
            ValueRef::Int(i64::from(self.month.number())),
            ValueRef::Text(self.branch.as_str().as_bytes()),
            through(self.through),
            ValueRef::Int(i64::from(self.count)),
            money(self.total),
        ]
        .to_vec(alloc)
    }

    ghost is_amending = { part_is };
}

impl Amend for PartFee {
    ghost use Rattle.dh_tables.specs.RunChanges.{IsPartFee, fee_amending, fee_is};

    type Record = PartFee;

    ghost key = { λ q. (q.month, q.branch) };

    ghost amended = { λ q p. record p { fee = q.fee; total = q.total } };

    ghost amending = { fee_amending };

    ghost can_amend = { IsPartFee };

    fn text() -> &'static str {
        "UPDATE part_fee SET fee = ?3, fee_total = ?4 WHERE month = ?1 AND branch_no = ?2"
    }

    fn params(&self, alloc: Global) -> Result<Vec<ValueRef<'_>>, AllocError> {
        [
            ValueRef::Int(i64::from(self.month.number())),
            ValueRef::Text(self.branch.as_str().as_bytes()),
            ValueRef::Int(i64::from(self.fee.number())),
            money(self.total),
        ]
        .to_vec(alloc)
    }

    ghost is_amending = { fee_is };
}
