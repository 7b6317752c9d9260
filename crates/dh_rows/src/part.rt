//! Parts of runs as rows.

use crate::Record;
use crate::cell::{read_row, write_row};
use dh_types::{EntryMonth, Id, Part};
use sqlite::Row;
use sqlite::types::ValueRef;
use std::alloc::{AllocError, Global};

// Its columns, in their order.
macro_rules! columns {
    ($way:ident $given:tt) => {
        $way!($given Part { month, branch, through, count, total })
    };
}

impl Record for Part {
    ghost use Rattle.std.specs.Prelude.{◌≡◌};
    ghost use Rattle.dh_rows.specs.PartRows.{part_row, is_part_row, part_in, part_back};

    type Key = (EntryMonth, Id);

    ghost row = { part_row };

    ghost is_row = { is_part_row };

    ghost decode = { part_in };

    ghost key_of = { λ p. (p.month, p.branch) };

    ghost decodes = { part_back };

    fn key(&self) -> (EntryMonth, Id) {
        (self.month, self.branch)
    }

    fn day_bytes(&self, alloc: Global) -> Result<Vec<u8>, AllocError> {
        Ok(Vec::new(alloc))
    }

    fn to_row<'a>(&'a self, alloc: Global, day: &'a [u8]) -> Result<Vec<ValueRef<'a>>, AllocError> {
        columns!(write_row(self, alloc, day))
    }

    fn from_row(alloc: Global, columns: &Row) -> Result<Option<Part>, AllocError> {
        columns!(read_row(alloc, columns))
    }
}
