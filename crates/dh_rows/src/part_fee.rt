//! Fees of parts of runs as rows.

use crate::Record;
use crate::cell::{read_row, write_row};
use dh_types::{EntryMonth, Id, PartFee};
use sqlite::Row;
use sqlite::types::ValueRef;
use std::alloc::{AllocError, Global};

// Its columns, in their order.
macro_rules! columns {
    ($way:ident $given:tt) => {
        $way!($given PartFee { month, branch, fee, total })
    };
}

impl Record for PartFee {
    ghost use Rattle.std.specs.Prelude.{◌≡◌};
    ghost use Rattle.dh_rows.specs.PartFeeRows.{part_fee_row, is_part_fee_row, part_fee_in, part_fee_back};

    type Key = (EntryMonth, Id);

    ghost row = { part_fee_row };

    ghost is_row = { is_part_fee_row };

    ghost decode = { part_fee_in };

    ghost key_of = { λ it. (it.month, it.branch) };

    ghost decodes = { part_fee_back };

    fn key(&self) -> (EntryMonth, Id) {
        (self.month, self.branch)
    }

    fn day_bytes(&self, alloc: Global) -> Result<Vec<u8>, AllocError> {
        Ok(Vec::new(alloc))
    }

    fn to_row<'a>(&'a self, alloc: Global, day: &'a [u8]) -> Result<Vec<ValueRef<'a>>, AllocError> {
        columns!(write_row(self, alloc, day))
    }

    fn from_row(alloc: Global, columns: &Row) -> Result<Option<PartFee>, AllocError> {
        columns!(read_row(alloc, columns))
    }
}
