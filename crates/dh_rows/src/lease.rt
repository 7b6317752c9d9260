//! Leases as rows.

use crate::Record;
use crate::cell::{read_row, write_row};
use dh_types::{Lease, LeaseNo, LeaseTerms};
use sqlite::Row;
use sqlite::types::ValueRef;
use std::alloc::{AllocError, Global};

// Its columns, in their order.
macro_rules! columns {
    ($way:ident $given:tt) => {
        $way!(
            $given [number, client, property, start, months, method, rent]
            Lease { terms: LeaseTerms { number, client, property, start, months, method }, rent }
        )
    };
}

impl Record for Lease {
    ghost use Rattle.std.specs.Prelude.{◌≡◌};
    ghost use Rattle.dh_days.specs.Days.{day_text};
    ghost use Rattle.dh_rows.specs.LeaseRows.{lease_row, is_lease_row, lease_in, lease_back};

    type Key = LeaseNo;

    ghost row = { lease_row };

    ghost is_row = { is_lease_row };

    ghost decode = { lease_in };

    ghost key_of = { λ l. l.terms.number };

    ghost day_column = { λ l. day_text l.terms.start };

    ghost decodes = { lease_back };

    fn key(&self) -> LeaseNo {
        self.terms.number
    }

    fn day_bytes(&self, alloc: Global) -> Result<Vec<u8>, AllocError> {
        let text = format!(in alloc; "{}", self.terms.start)?;
        Ok(text.into_bytes())
    }

    fn to_row<'a>(&'a self, alloc: Global, day: &'a [u8]) -> Result<Vec<ValueRef<'a>>, AllocError> {
        columns!(write_row(self, alloc, day))
    }

    fn from_row(alloc: Global, columns: &Row) -> Result<Option<Lease>, AllocError> {
        columns!(read_row(alloc, columns))
    }
}
