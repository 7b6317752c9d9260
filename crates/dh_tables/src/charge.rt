//! Charges in their table.

use crate::{InBulk, Listed, PlainLook, Tabled};
use dh_books::Books;
use dh_ddl::text_of;
use dh_types::{Charge, ChargeIndex, LeaseNo, Version};
use sqlite::types::ValueRef;
use std::alloc::{AllocError, Global};

impl Tabled for Charge {
    ghost use Rattle.dh_types.specs.declared.version.Version.TheVariants.{First};
    ghost use Rattle.std.specs.Prelude.{refl};
    ghost use Rattle.std.specs.Ordering.{nat_cmp};
    ghost use Rattle.dh_model.specs.Books.{pair_cmp};
    ghost use Rattle.dh_model.specs.Kinds.{Charges};
    ghost use Rattle.dh_tables.specs.Kinds.{itself};
    ghost use Rattle.dh_tables.specs.Accessors.{accessor_of};
    ghost use Rattle.dh_tables.specs.ChargeTable.{charge_adding, charge_is_adding, charge_shape};

    ghost shape = { charge_shape };

    ghost order = { pair_cmp nat_cmp nat_cmp };

    ghost since = { First };

    fn came_with() -> Version {
        Version::First
    }

    ghost adding = { charge_adding };

    ghost accessor = { accessor_of Charges };

    ghost is_kind = { itself Charges };

    fn insert_text() -> &'static str {
        text_of!(insert, charge, "")
    }

    fn put(self, books: &mut Books) -> Result<(), AllocError> {
        books.put_charge(self)
    }

    ghost has_shape = { record { is_row_is = λ r. refl; row_in_is = λ r. refl; key_is = λ x. refl } };

    ghost is_adding = { charge_is_adding };
}

impl Listed for Charge {
    ghost use Rattle.dh_tables.specs.ChargeTable.{charge_named, charge_is_listing};

    ghost named = { charge_named };

    fn select_rows_text() -> &'static str {
        text_of!(select, charge, "")
    }

    fn select_rowids_text() -> &'static str {
        "SELECT rowid FROM charge"
    }

    fn held_count(books: &Books) -> usize {
        books.charges().len()
    }

    ghost is_listing = { charge_is_listing };
}

impl InBulk for Charge {
    ghost use Rattle.dh_tables.specs.ChargeTable.{charge_adds_bulk};

    fn bulk_text() -> &'static str {
        text_of!(
            insert,
            charge,
            "), (?6, ?7, ?8, ?9, ?10), (?11, ?12, ?13, ?14, ?15), (?16, ?17, ?18, ?19, ?20), \
             (?21, ?22, ?23, ?24, ?25), (?26, ?27, ?28, ?29, ?30), (?31, ?32, ?33, ?34, ?35), (?36, ?37, ?38, ?39, ?40), \
             (?41, ?42, ?43, ?44, ?45), (?46, ?47, ?48, ?49, ?50"
        )
    }

    ghost adds_bulk = { charge_adds_bulk };
}

/// The charge of this lease that has this index.
#[derive(Drop)]
pub struct ChargeOf {
    pub lease: LeaseNo,
    pub index: ChargeIndex,
}

impl PlainLook for ChargeOf {
    ghost use Rattle.dh_tables.specs.ChargeTable.{charge_of, charge_of_is};

    type Record = Charge;

    ghost question = { charge_of };

    fn asked_text() -> &'static str {
        text_of!(select, charge, " WHERE lease_no = ?1 AND k = ?2")
    }

    fn values(&self, alloc: Global) -> Result<Vec<ValueRef<'_>>, AllocError> {
        [
            ValueRef::Int(i64::from(self.lease.number())),
            ValueRef::Int(i64::from(self.index.number())),
        ]
        .to_vec(alloc)
    }

    ghost is_question = { charge_of_is };
}

/// The charges of this lease.
#[derive(Drop)]
pub struct ChargesOfLease {
    pub lease: LeaseNo,
}

impl PlainLook for ChargesOfLease {
    ghost use Rattle.dh_tables.specs.ChargeTable.{charges_of_lease, charges_of_lease_is};

    type Record = Charge;

    ghost question = { charges_of_lease };

    fn asked_text() -> &'static str {
        text_of!(select, charge, " WHERE lease_no = ?1")
    }

    fn values(&self, alloc: Global) -> Result<Vec<ValueRef<'_>>, AllocError> {
        [ValueRef::Int(i64::from(self.lease.number()))].to_vec(alloc)
    }

    ghost is_question = { charges_of_lease_is };
}
