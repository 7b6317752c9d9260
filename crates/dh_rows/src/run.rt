//! Runs as rows.

use crate::Record;
use crate::cell::{read_row, write_row};
use dh_types::{EntryMonth, Run};
use sqlite::Row;
use sqlite::types::ValueRef;
use std::alloc::{AllocError, Global};

// Its columns, in their order.
macro_rules! columns {
    ($way:ident $given:tt) => {
        $way!($given Run { month, key, count, total, is_closed })
    };
}

impl Record for Run {
    ghost use Rattle.std.specs.Prelude.{◌≡◌};
    ghost use Rattle.dh_rows.specs.RunRows.{run_row, is_run_row, run_in, run_back};

    type Key = EntryMonth;

    ghost row = { run_row };

    ghost is_row = { is_run_row };

    ghost decode = { run_in };

    ghost key_of = { λ r. r.month };

    ghost decodes = { run_back };

    fn key(&self) -> EntryMonth {
        self.month
    }

    fn day_bytes(&self, alloc: Global) -> Result<Vec<u8>, AllocError> {
        Ok(Vec::new(alloc))
    }

    fn to_row<'a>(&'a self, alloc: Global, day: &'a [u8]) -> Result<Vec<ValueRef<'a>>, AllocError> {
        columns!(write_row(self, alloc, day))
    }

    fn from_row(alloc: Global, columns: &Row) -> Result<Option<Run>, AllocError> {
        columns!(read_row(alloc, columns))
    }
}
