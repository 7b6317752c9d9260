//! Receipts as rows.

use crate::Record;
use crate::cell::{read_row, write_row};
use dh_types::{Payment, Receipt, ReceiptNo};
use sqlite::Row;
use sqlite::types::ValueRef;
use std::alloc::{AllocError, Global};

// Its columns, in their order.
macro_rules! columns {
    ($way:ident $given:tt) => {
        $way!(
            $given [number, key, lease, kind, amount, day]
            Receipt { number, key, payment: Payment { lease, kind, amount, day } }
        )
    };
}

impl Record for Receipt {
    ghost use Rattle.std.specs.Prelude.{◌≡◌};
    ghost use Rattle.dh_days.specs.Days.{day_text};
    ghost use Rattle.dh_rows.specs.ReceiptRows.{receipt_row, is_receipt_row, receipt_in, receipt_back};

    type Key = ReceiptNo;

    ghost row = { receipt_row };

    ghost is_row = { is_receipt_row };

    ghost decode = { receipt_in };

    ghost key_of = { λ r. r.number };

    ghost day_column = { λ r. day_text r.payment.day };

    ghost decodes = { receipt_back };

    fn key(&self) -> ReceiptNo {
        self.number
    }

    fn day_bytes(&self, alloc: Global) -> Result<Vec<u8>, AllocError> {
        let text = format!(in alloc; "{}", self.payment.day)?;
        Ok(text.into_bytes())
    }

    fn to_row<'a>(&'a self, alloc: Global, day: &'a [u8]) -> Result<Vec<ValueRef<'a>>, AllocError> {
        columns!(write_row(self, alloc, day))
    }

    fn from_row(alloc: Global, columns: &Row) -> Result<Option<Receipt>, AllocError> {
        columns!(read_row(alloc, columns))
    }
}
