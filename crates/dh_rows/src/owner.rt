//! Owners as rows.

use crate::Record;
use crate::cell::{read_row, write_row};
use dh_types::{Id, Owner};
use sqlite::Row;
use sqlite::types::ValueRef;
use std::alloc::{AllocError, Global};

// Its columns, in their order.
macro_rules! columns {
    ($way:ident $given:tt) => {
        $way!($given Owner { number, name, address, telephone })
    };
}

impl Record for Owner {
    ghost use Rattle.std.specs.Prelude.{◌≡◌};
    ghost use Rattle.dh_rows.specs.OwnerRows.{owner_row, is_owner_row, owner_in, owner_back};

    type Key = Id;

    ghost row = { owner_row };

    ghost is_row = { is_owner_row };

    ghost decode = { owner_in };

    ghost key_of = { λ o. o.number };

    ghost decodes = { owner_back };

    fn key(&self) -> Id {
        self.number
    }

    fn day_bytes(&self, alloc: Global) -> Result<Vec<u8>, AllocError> {
        Ok(Vec::new(alloc))
    }

    fn to_row<'a>(&'a self, alloc: Global, day: &'a [u8]) -> Result<Vec<ValueRef<'a>>, AllocError> {
        columns!(write_row(self, alloc, day))
    }

    fn from_row(alloc: Global, columns: &Row) -> Result<Option<Owner>, AllocError> {
        columns!(read_row(alloc, columns))
    }
}
