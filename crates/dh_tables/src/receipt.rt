//! Receipts in their table.

use crate::{Listed, PlainLook, Tabled};
use dh_books::Books;
use dh_ddl::text_of;
use dh_types::{Key, LeaseNo, Receipt, ReceiptNo, Version};
use sqlite::types::ValueRef;
use std::alloc::{AllocError, Global};

impl Tabled for Receipt {
    ghost use Rattle.dh_types.specs.declared.version.Version.TheVariants.{First};
    ghost use Rattle.std.specs.Prelude.{refl};
    ghost use Rattle.std.specs.Ordering.{nat_cmp};
    ghost use Rattle.dh_model.specs.Kinds.{Receipts};
    ghost use Rattle.dh_tables.specs.Kinds.{itself};
    ghost use Rattle.dh_tables.specs.Accessors.{accessor_of};
    ghost use Rattle.dh_tables.specs.ReceiptTable.{receipt_adding, receipt_is_adding, receipt_shape};

    ghost shape = { receipt_shape };

    ghost order = { nat_cmp };

    ghost since = { First };

    fn came_with() -> Version {
        Version::First
    }

    ghost adding = { receipt_adding };

    ghost accessor = { accessor_of Receipts };

    ghost is_kind = { itself Receipts };

    fn insert_text() -> &'static str {
        text_of!(insert, receipt, "")
    }

    fn put(self, books: &mut Books) -> Result<(), AllocError> {
        books.put_receipt(self)
    }

    ghost has_shape = { record { is_row_is = λ r. refl; row_in_is = λ r. refl; key_is = λ x. refl } };

    ghost is_adding = { receipt_is_adding };
}

impl Listed for Receipt {
    ghost use Rattle.dh_tables.specs.ReceiptTable.{receipt_named, receipt_is_listing};

    ghost named = { receipt_named };

    fn select_rows_text() -> &'static str {
        text_of!(select, receipt, "")
    }

    fn select_rowids_text() -> &'static str {
        "SELECT rowid FROM receipt"
    }

    fn held_count(books: &Books) -> usize {
        books.receipts().len()
    }

    ghost is_listing = { receipt_is_listing };
}

/// The receipt with this number.
#[derive(Drop)]
pub struct ReceiptNumbered {
    pub number: ReceiptNo,
}

impl PlainLook for ReceiptNumbered {
    ghost use Rattle.dh_tables.specs.ReceiptTable.{receipt_numbered, receipt_numbered_is};

    type Record = Receipt;

    ghost question = { receipt_numbered };

    fn asked_text() -> &'static str {
        text_of!(select, receipt, " WHERE receipt_no = ?1")
    }

    fn values(&self, alloc: Global) -> Result<Vec<ValueRef<'_>>, AllocError> {
        [ValueRef::Int(i64::from(self.number.number()))].to_vec(alloc)
    }

    ghost is_question = { receipt_numbered_is };
}

/// The receipt with this request key.
#[derive(Drop)]
pub struct ReceiptKeyed {
    pub key: Key,
}

impl PlainLook for ReceiptKeyed {
    ghost use Rattle.dh_tables.specs.ReceiptTable.{receipt_keyed, receipt_keyed_is};

    type Record = Receipt;

    ghost question = { receipt_keyed };

    fn asked_text() -> &'static str {
        text_of!(select, receipt, " WHERE req_key = ?1")
    }

    fn values(&self, alloc: Global) -> Result<Vec<ValueRef<'_>>, AllocError> {
        [ValueRef::Text(self.key.as_str().as_bytes())].to_vec(alloc)
    }

    ghost is_question = { receipt_keyed_is };
}

/// The receipts of this lease.
#[derive(Drop)]
pub struct ReceiptsOfLease {
    pub lease: LeaseNo,
}

impl PlainLook for ReceiptsOfLease {
    ghost use Rattle.dh_tables.specs.ReceiptTable.{receipts_of_lease, receipts_of_lease_is};

    type Record = Receipt;

    ghost question = { receipts_of_lease };

    fn asked_text() -> &'static str {
        text_of!(select, receipt, " WHERE lease_no = ?1")
    }

    fn values(&self, alloc: Global) -> Result<Vec<ValueRef<'_>>, AllocError> {
        [ValueRef::Int(i64::from(self.lease.number()))].to_vec(alloc)
    }

    ghost is_question = { receipts_of_lease_is };
}

/// The deposits that were paid for this lease.
#[derive(Drop)]
pub struct DepositsOfLease {
    pub lease: LeaseNo,
}

impl PlainLook for DepositsOfLease {
    ghost use Rattle.dh_tables.specs.ReceiptTable.{deposits_of_lease, deposits_of_lease_is};

    type Record = Receipt;

    ghost question = { deposits_of_lease };

    fn asked_text() -> &'static str {
        text_of!(select, receipt, " WHERE lease_no = ?1 AND kind = 'deposit'")
    }

    fn values(&self, alloc: Global) -> Result<Vec<ValueRef<'_>>, AllocError> {
        [ValueRef::Int(i64::from(self.lease.number()))].to_vec(alloc)
    }

    ghost is_question = { deposits_of_lease_is };
}
