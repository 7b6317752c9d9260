//! Clients as rows.

use crate::Record;
use crate::cell::{read_row, write_row};
use dh_types::{Client, Id};
use sqlite::Row;
use sqlite::types::ValueRef;
use std::alloc::{AllocError, Global};

// Its columns, in their order.
macro_rules! columns {
    ($way:ident $given:tt) => {
        $way!($given Client { number, name, telephone, preferred_type, greatest_rent })
    };
}

impl Record for Client {
    ghost use Rattle.std.specs.Prelude.{◌≡◌};
    ghost use Rattle.dh_rows.specs.ClientRows.{client_row, is_client_row, client_in, client_back};

    type Key = Id;

    ghost row = { client_row };

    ghost is_row = { is_client_row };

    ghost decode = { client_in };

    ghost key_of = { λ c. c.number };

    ghost decodes = { client_back };

    fn key(&self) -> Id {
        self.number
    }

    fn day_bytes(&self, alloc: Global) -> Result<Vec<u8>, AllocError> {
        Ok(Vec::new(alloc))
    }

    fn to_row<'a>(&'a self, alloc: Global, day: &'a [u8]) -> Result<Vec<ValueRef<'a>>, AllocError> {
        columns!(write_row(self, alloc, day))
    }

    fn from_row(alloc: Global, columns: &Row) -> Result<Option<Client>, AllocError> {
        columns!(read_row(alloc, columns))
    }
}
