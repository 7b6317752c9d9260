//! Fees of branches as rows.

use crate::Record;
use crate::cell::{read_row, write_row};
use dh_types::{BranchFee, Id};
use sqlite::Row;
use sqlite::types::ValueRef;
use std::alloc::{AllocError, Global};

// Its columns, in their order.
macro_rules! columns {
    ($way:ident $given:tt) => {
        $way!($given BranchFee { branch, fee })
    };
}

impl Record for BranchFee {
    ghost use Rattle.std.specs.Prelude.{◌≡◌};
    ghost use Rattle.dh_rows.specs.BranchFeeRows.{branch_fee_row, is_branch_fee_row, branch_fee_in, branch_fee_back};

    type Key = Id;

    ghost row = { branch_fee_row };

    ghost is_row = { is_branch_fee_row };

    ghost decode = { branch_fee_in };

    ghost key_of = { λ it. it.branch };

    ghost decodes = { branch_fee_back };

    fn key(&self) -> Id {
        self.branch
    }

    fn day_bytes(&self, alloc: Global) -> Result<Vec<u8>, AllocError> {
        Ok(Vec::new(alloc))
    }

    fn to_row<'a>(&'a self, alloc: Global, day: &'a [u8]) -> Result<Vec<ValueRef<'a>>, AllocError> {
        columns!(write_row(self, alloc, day))
    }

    fn from_row(alloc: Global, columns: &Row) -> Result<Option<BranchFee>, AllocError> {
        columns!(read_row(alloc, columns))
    }
}
