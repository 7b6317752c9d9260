//! Properties as rows.

use crate::Record;
use crate::cell::{read_row, write_row};
use dh_types::{Id, Property};
use sqlite::Row;
use sqlite::types::ValueRef;
use std::alloc::{AllocError, Global};

// Its columns, in their order.
macro_rules! columns {
    ($way:ident $given:tt) => {
        $way!($given Property { number, street, city, postcode, property_type, rooms, rent, owner, staff, branch })
    };
}

impl Record for Property {
    ghost use Rattle.std.specs.Prelude.{◌≡◌};
    ghost use Rattle.dh_rows.specs.PropertyRows.{property_row, is_property_row, property_in, property_back};

    type Key = Id;

    ghost row = { property_row };

    ghost is_row = { is_property_row };

    ghost decode = { property_in };

    ghost key_of = { λ p. p.number };

    ghost decodes = { property_back };

    fn key(&self) -> Id {
        self.number
    }

    fn day_bytes(&self, alloc: Global) -> Result<Vec<u8>, AllocError> {
        Ok(Vec::new(alloc))
    }

    fn to_row<'a>(&'a self, alloc: Global, day: &'a [u8]) -> Result<Vec<ValueRef<'a>>, AllocError> {
        columns!(write_row(self, alloc, day))
    }

    fn from_row(alloc: Global, columns: &Row) -> Result<Option<Property>, AllocError> {
        columns!(read_row(alloc, columns))
    }
}
