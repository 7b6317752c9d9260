//! Early endings of leases as rows.

use crate::Record;
use crate::cell::{read_row, write_row};
use dh_types::{Ending, LeaseNo};
use sqlite::Row;
use sqlite::types::ValueRef;
use std::alloc::{AllocError, Global};

// Its columns, in their order.
macro_rules! columns {
    ($way:ident $given:tt) => {
        $way!($given Ending { lease, months })
    };
}

impl Record for Ending {
    ghost use Rattle.std.specs.Prelude.{◌≡◌};
    ghost use Rattle.dh_rows.specs.EndingRows.{ending_row, is_ending_row, ending_in, ending_back};

    type Key = LeaseNo;

    ghost row = { ending_row };

    ghost is_row = { is_ending_row };

    ghost decode = { ending_in };

    ghost key_of = { λ e. e.lease };

    ghost decodes = { ending_back };

    fn key(&self) -> LeaseNo {
        self.lease
    }

    fn day_bytes(&self, alloc: Global) -> Result<Vec<u8>, AllocError> {
        Ok(Vec::new(alloc))
    }

    fn to_row<'a>(&'a self, alloc: Global, day: &'a [u8]) -> Result<Vec<ValueRef<'a>>, AllocError> {
        columns!(write_row(self, alloc, day))
    }

    fn from_row(alloc: Global, columns: &Row) -> Result<Option<Ending>, AllocError> {
        columns!(read_row(alloc, columns))
    }
}
