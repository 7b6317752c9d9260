//! Viewings as rows.

use crate::Record;
use crate::cell::{read_row, write_row};
use dh_types::{Id, Viewing};
use sqlite::Row;
use sqlite::types::ValueRef;
use std::alloc::{AllocError, Global};

// Its columns, in their order.
macro_rules! columns {
    ($way:ident $given:tt) => {
        $way!($given Viewing { client, property, day, comment })
    };
}

impl Record for Viewing {
    ghost use Rattle.std.specs.Prelude.{◌≡◌};
    ghost use Rattle.dh_days.specs.Days.{day_text};
    ghost use Rattle.dh_rows.specs.ViewingRows.{viewing_row, is_viewing_row, viewing_in, viewing_back};

    type Key = (Id, Id);

    ghost row = { viewing_row };

    ghost is_row = { is_viewing_row };

    ghost decode = { viewing_in };

    ghost key_of = { λ v. (v.client, v.property) };

    ghost day_column = { λ v. day_text v.day };

    ghost decodes = { viewing_back };

    fn key(&self) -> (Id, Id) {
        (self.client, self.property)
    }

    fn day_bytes(&self, alloc: Global) -> Result<Vec<u8>, AllocError> {
        let text = format!(in alloc; "{}", self.day)?;
        Ok(text.into_bytes())
    }

    fn to_row<'a>(&'a self, alloc: Global, day: &'a [u8]) -> Result<Vec<ValueRef<'a>>, AllocError> {
        columns!(write_row(self, alloc, day))
    }

    fn from_row(alloc: Global, columns: &Row) -> Result<Option<Viewing>, AllocError> {
        columns!(read_row(alloc, columns))
    }
}
