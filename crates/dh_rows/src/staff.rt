//! Members of staff as rows.

use crate::Record;
use crate::cell::{read_row, write_row};
use dh_types::{Id, Staff};
use sqlite::Row;
use sqlite::types::ValueRef;
use std::alloc::{AllocError, Global};

// Its columns, in their order.
macro_rules! columns {
    ($way:ident $given:tt) => {
        $way!($given Staff { number, name, position, branch })
    };
}

impl Record for Staff {
    ghost use Rattle.std.specs.Prelude.{◌≡◌};
    ghost use Rattle.dh_rows.specs.StaffRows.{staff_row, is_staff_row, staff_in, staff_back};

    type Key = Id;

    ghost row = { staff_row };

    ghost is_row = { is_staff_row };

    ghost decode = { staff_in };

    ghost key_of = { λ s. s.number };

    ghost decodes = { staff_back };

    fn key(&self) -> Id {
        self.number
    }

    fn day_bytes(&self, alloc: Global) -> Result<Vec<u8>, AllocError> {
        Ok(Vec::new(alloc))
    }

    fn to_row<'a>(&'a self, alloc: Global, day: &'a [u8]) -> Result<Vec<ValueRef<'a>>, AllocError> {
        columns!(write_row(self, alloc, day))
    }

    fn from_row(alloc: Global, columns: &Row) -> Result<Option<Staff>, AllocError> {
        columns!(read_row(alloc, columns))
    }
}
