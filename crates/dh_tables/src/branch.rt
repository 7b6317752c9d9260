//! Branches in their table.

use crate::{Listed, PlainLook, Tabled};
use dh_books::Books;
use dh_ddl::text_of;
use dh_types::{Branch, Id, Version};
use sqlite::types::ValueRef;
use std::alloc::{AllocError, Global};

impl Tabled for Branch {
    ghost use Rattle.dh_types.specs.declared.version.Version.TheVariants.{First};
    ghost use Rattle.std.specs.Prelude.{refl};
    ghost use Rattle.dh_model.specs.Books.{text_cmp};
    ghost use Rattle.dh_model.specs.Kinds.{Branches};
    ghost use Rattle.dh_tables.specs.Kinds.{itself};
    ghost use Rattle.dh_tables.specs.Accessors.{accessor_of};
    ghost use Rattle.dh_tables.specs.BranchTable.{branch_adding, branch_is_adding, branch_shape};

    ghost shape = { branch_shape };

    ghost order = { text_cmp };

    ghost since = { First };

    fn came_with() -> Version {
        Version::First
    }

    ghost adding = { branch_adding };

    ghost accessor = { accessor_of Branches };

    ghost is_kind = { itself Branches };

    fn insert_text() -> &'static str {
        text_of!(insert, branch, "")
    }

    fn put(self, books: &mut Books) -> Result<(), AllocError> {
        books.put_branch(self)
    }

    ghost has_shape = { record { is_row_is = λ r. refl; row_in_is = λ r. refl; key_is = λ x. refl } };

    ghost is_adding = { branch_is_adding };
}

impl Listed for Branch {
    ghost use Rattle.dh_tables.specs.BranchTable.{branch_named, branch_is_listing};

    ghost named = { branch_named };

    fn select_rows_text() -> &'static str {
        text_of!(select, branch, "")
    }

    fn select_rowids_text() -> &'static str {
        "SELECT rowid FROM branch"
    }

    fn held_count(books: &Books) -> usize {
        books.branches().len()
    }

    ghost is_listing = { branch_is_listing };
}

/// The branch with this number.
#[derive(Drop)]
pub struct BranchNumbered {
    pub number: Id,
}

impl PlainLook for BranchNumbered {
    ghost use Rattle.dh_tables.specs.BranchTable.{branch_numbered, branch_is_numbered};

    type Record = Branch;

    ghost question = { branch_numbered };

    fn asked_text() -> &'static str {
        text_of!(select, branch, " WHERE branch_no = ?1")
    }

    fn values(&self, alloc: Global) -> Result<Vec<ValueRef<'_>>, AllocError> {
        [ValueRef::Text(self.number.as_str().as_bytes())].to_vec(alloc)
    }

    ghost is_question = { branch_is_numbered };
}
