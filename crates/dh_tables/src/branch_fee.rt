//! Fees of branches in their table.

use crate::{Listed, PlainLook, Tabled};
use dh_books::Books;
use dh_ddl::text_of;
use dh_types::{BranchFee, Id, Version};
use sqlite::types::ValueRef;
use std::alloc::{AllocError, Global};

impl Tabled for BranchFee {
    ghost use Rattle.dh_types.specs.declared.version.Version.TheVariants.{Second};
    ghost use Rattle.std.specs.Prelude.{refl};
    ghost use Rattle.dh_model.specs.Books.{text_cmp};
    ghost use Rattle.dh_model.specs.Kinds.{BranchFees};
    ghost use Rattle.dh_tables.specs.Kinds.{itself};
    ghost use Rattle.dh_tables.specs.Accessors.{accessor_of};
    ghost use Rattle.dh_tables.specs.BranchFeeTable.{branch_fee_adding, branch_fee_is_adding, branch_fee_shape};

    ghost shape = { branch_fee_shape };

    ghost order = { text_cmp };

    ghost since = { Second };

    fn came_with() -> Version {
        Version::Second
    }

    ghost adding = { branch_fee_adding };

    ghost accessor = { accessor_of BranchFees };

    ghost is_kind = { itself BranchFees };

    fn insert_text() -> &'static str {
        text_of!(insert, branch_fee, "")
    }

    fn put(self, books: &mut Books) -> Result<(), AllocError> {
        books.put_branch_fee(self)
    }

    ghost has_shape = { record { is_row_is = λ r. refl; row_in_is = λ r. refl; key_is = λ x. refl } };

    ghost is_adding = { branch_fee_is_adding };
}

impl Listed for BranchFee {
    ghost use Rattle.dh_tables.specs.BranchFeeTable.{branch_fee_named, branch_fee_is_listing};

    ghost named = { branch_fee_named };

    fn select_rows_text() -> &'static str {
        text_of!(select, branch_fee, "")
    }

    fn select_rowids_text() -> &'static str {
        "SELECT rowid FROM branch_fee"
    }

    fn held_count(books: &Books) -> usize {
        books.branch_fees().len()
    }

    ghost is_listing = { branch_fee_is_listing };
}

/// The present fee of this branch.
#[derive(Drop)]
pub struct FeeOfBranch {
    pub branch: Id,
}

impl PlainLook for FeeOfBranch {
    ghost use Rattle.dh_tables.specs.BranchFeeTable.{fee_of_branch, fee_of_branch_is};

    type Record = BranchFee;

    ghost question = { fee_of_branch };

    fn asked_text() -> &'static str {
        text_of!(select, branch_fee, " WHERE branch_no = ?1")
    }

    fn values(&self, alloc: Global) -> Result<Vec<ValueRef<'_>>, AllocError> {
        [ValueRef::Text(self.branch.as_str().as_bytes())].to_vec(alloc)
    }

    ghost is_question = { fee_of_branch_is };
}
