//! Registrations as rows.

use crate::Record;
use crate::cell::{read_row, write_row};
use dh_types::{Id, Registration};
use sqlite::Row;
use sqlite::types::ValueRef;
use std::alloc::{AllocError, Global};

// Its columns, in their order.
macro_rules! columns {
    ($way:ident $given:tt) => {
        $way!($given Registration { client, branch, staff, day })
    };
}

impl Record for Registration {
    ghost use Rattle.std.specs.Prelude.{◌≡◌};
    ghost use Rattle.dh_days.specs.Days.{day_text};
    ghost use Rattle.dh_rows.specs.RegistrationRows.{registration_row, is_registration_row, registration_in, registration_back};

    type Key = (Id, Id);

    ghost row = { registration_row };

    ghost is_row = { is_registration_row };

    ghost decode = { registration_in };

    ghost key_of = { λ r. (r.client, r.branch) };

    ghost day_column = { λ r. day_text r.day };

    ghost decodes = { registration_back };

    fn key(&self) -> (Id, Id) {
        (self.client, self.branch)
    }

    fn day_bytes(&self, alloc: Global) -> Result<Vec<u8>, AllocError> {
        let text = format!(in alloc; "{}", self.day)?;
        Ok(text.into_bytes())
    }

    fn to_row<'a>(&'a self, alloc: Global, day: &'a [u8]) -> Result<Vec<ValueRef<'a>>, AllocError> {
        columns!(write_row(self, alloc, day))
    }

    fn from_row(alloc: Global, columns: &Row) -> Result<Option<Registration>, AllocError> {
        columns!(read_row(alloc, columns))
    }
}
