//! Charges as rows.

use crate::Record;
use crate::cell::{read_row, write_row};
use dh_types::{Charge, ChargeIndex, LeaseNo};
use sqlite::Row;
use sqlite::types::ValueRef;
use std::alloc::{AllocError, Global};

// Its columns, in their order.
macro_rules! columns {
    ($way:ident $given:tt) => {
        $way!($given Charge { lease, index, month, day, amount })
    };
}

impl Record for Charge {
    ghost use Rattle.std.specs.Prelude.{◌≡◌, ◌≤◌};
    ghost use Rattle.dh_days.specs.Days.{day_text, month_of_day};
    ghost use Rattle.dh_days.specs.declared.limits.TheConstants.{LAST_ENTRY_MONTH};
    ghost use Rattle.dh_rows.specs.ChargeRows.{charge_row, is_charge_row, charge_in, charge_back};

    type Key = (LeaseNo, ChargeIndex);

    ghost row = { charge_row };

    ghost is_row = { is_charge_row };

    ghost decode = { charge_in };

    ghost key_of = { λ c. (c.lease, c.index) };

    ghost day_column = { λ c. day_text c.day };

    // Rent that falls due later is kept by no table.
    ghost can_keep = { λ c. month_of_day c.day ≤ LAST_ENTRY_MONTH };

    ghost decodes = { charge_back };

    fn key(&self) -> (LeaseNo, ChargeIndex) {
        (self.lease, self.index)
    }

    fn day_bytes(&self, alloc: Global) -> Result<Vec<u8>, AllocError> {
        let text = format!(in alloc; "{}", self.day)?;
        Ok(text.into_bytes())
    }

    fn to_row<'a>(&'a self, alloc: Global, day: &'a [u8]) -> Result<Vec<ValueRef<'a>>, AllocError> {
        columns!(write_row(self, alloc, day))
    }

    fn from_row(alloc: Global, columns: &Row) -> Result<Option<Charge>, AllocError> {
        columns!(read_row(alloc, columns))
    }
}
