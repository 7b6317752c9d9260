//! Inspections as rows.

use crate::Record;
use crate::cell::{read_row, write_row};
use dh_types::{EntryDay, Id, Inspection};
use sqlite::Row;
use sqlite::types::ValueRef;
use std::alloc::{AllocError, Global};

// Its columns, in their order.
macro_rules! columns {
    ($way:ident $given:tt) => {
        $way!($given Inspection { property, day, staff, comment })
    };
}

impl Record for Inspection {
    ghost use Rattle.std.specs.Prelude.{◌≡◌};
    ghost use Rattle.dh_days.specs.Days.{day_text};
    ghost use Rattle.dh_rows.specs.InspectionRows.{inspection_row, is_inspection_row, inspection_in, inspection_back};

    type Key = (Id, EntryDay);

    ghost row = { inspection_row };

    ghost is_row = { is_inspection_row };

    ghost decode = { inspection_in };

    ghost key_of = { λ n. (n.property, n.day) };

    ghost day_column = { λ n. day_text n.day };

    ghost decodes = { inspection_back };

    fn key(&self) -> (Id, EntryDay) {
        (self.property, self.day)
    }

    fn day_bytes(&self, alloc: Global) -> Result<Vec<u8>, AllocError> {
        let text = format!(in alloc; "{}", self.day)?;
        Ok(text.into_bytes())
    }

    fn to_row<'a>(&'a self, alloc: Global, day: &'a [u8]) -> Result<Vec<ValueRef<'a>>, AllocError> {
        columns!(write_row(self, alloc, day))
    }

    fn from_row(alloc: Global, columns: &Row) -> Result<Option<Inspection>, AllocError> {
        columns!(read_row(alloc, columns))
    }
}
