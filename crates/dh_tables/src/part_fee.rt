//! Fees of parts of runs in their table.

use crate::{Listed, PlainLook, Tabled};
use dh_books::Books;
use dh_ddl::text_of;
use dh_types::{EntryMonth, Id, PartFee, Version};
use sqlite::types::ValueRef;
use std::alloc::{AllocError, Global};

impl Tabled for PartFee {
    ghost use Rattle.dh_types.specs.declared.version.Version.TheVariants.{Second};
    ghost use Rattle.std.specs.Prelude.{refl};
    ghost use Rattle.std.specs.Ordering.{nat_cmp};
    ghost use Rattle.dh_model.specs.Books.{pair_cmp, text_cmp};
    ghost use Rattle.dh_model.specs.Kinds.{PartFees};
    ghost use Rattle.dh_tables.specs.Kinds.{itself};
    ghost use Rattle.dh_tables.specs.Accessors.{accessor_of};
    ghost use Rattle.dh_tables.specs.PartFeeTable.{part_fee_adding, part_fee_is_adding, part_fee_shape};

    ghost shape = { part_fee_shape };

    ghost order = { pair_cmp nat_cmp text_cmp };

    ghost since = { Second };

    fn came_with() -> Version {
        Version::Second
    }

    ghost adding = { part_fee_adding };

    ghost accessor = { accessor_of PartFees };

    ghost is_kind = { itself PartFees };

    fn insert_text() -> &'static str {
        text_of!(insert, part_fee, "")
    }

    fn put(self, books: &mut Books) -> Result<(), AllocError> {
        books.put_part_fee(self)
    }

    ghost has_shape = { record { is_row_is = λ r. refl; row_in_is = λ r. refl; key_is = λ x. refl } };

    ghost is_adding = { part_fee_is_adding };
}

impl Listed for PartFee {
    ghost use Rattle.dh_tables.specs.PartFeeTable.{part_fee_named, part_fee_is_listing};

    ghost named = { part_fee_named };

    fn select_rows_text() -> &'static str {
        text_of!(select, part_fee, "")
    }

    fn select_rowids_text() -> &'static str {
        "SELECT rowid FROM part_fee"
    }

    fn held_count(books: &Books) -> usize {
        books.part_fees().len()
    }

    ghost is_listing = { part_fee_is_listing };
}

/// The fee of the part of the run of this month at this branch.
#[derive(Drop)]
pub struct FeeOfPart {
    pub month: EntryMonth,
    pub branch: Id,
}

impl PlainLook for FeeOfPart {
    ghost use Rattle.dh_tables.specs.PartFeeTable.{fee_of_part, fee_of_part_is};

    type Record = PartFee;

    ghost question = { fee_of_part };

    fn asked_text() -> &'static str {
        text_of!(select, part_fee, " WHERE month = ?1 AND branch_no = ?2")
    }

    fn values(&self, alloc: Global) -> Result<Vec<ValueRef<'_>>, AllocError> {
        [
            ValueRef::Int(i64::from(self.month.number())),
            ValueRef::Text(self.branch.as_str().as_bytes()),
        ]
        .to_vec(alloc)
    }

    ghost is_question = { fee_of_part_is };
}

/// The fees of the parts of the run of this month.
#[derive(Drop)]
pub struct FeesOfMonth {
    pub month: EntryMonth,
}

impl PlainLook for FeesOfMonth {
    ghost use Rattle.dh_tables.specs.PartFeeTable.{fees_of_month, fees_of_month_is};

    type Record = PartFee;

    ghost question = { fees_of_month };

    fn asked_text() -> &'static str {
        text_of!(select, part_fee, " WHERE month = ?1")
    }

    fn values(&self, alloc: Global) -> Result<Vec<ValueRef<'_>>, AllocError> {
        [ValueRef::Int(i64::from(self.month.number()))].to_vec(alloc)
    }

    ghost is_question = { fees_of_month_is };
}
