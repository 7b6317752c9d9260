//! Parts of runs in their table.

use crate::{Listed, PlainLook, Tabled};
use dh_books::Books;
use dh_ddl::text_of;
use dh_types::{EntryMonth, Id, Part, Version};
use sqlite::types::ValueRef;
use std::alloc::{AllocError, Global};

impl Tabled for Part {
    ghost use Rattle.dh_types.specs.declared.version.Version.TheVariants.{First};
    ghost use Rattle.std.specs.Prelude.{refl};
    ghost use Rattle.std.specs.Ordering.{nat_cmp};
    ghost use Rattle.dh_model.specs.Books.{pair_cmp, text_cmp};
    ghost use Rattle.dh_model.specs.Kinds.{Parts};
    ghost use Rattle.dh_tables.specs.Kinds.{itself};
    ghost use Rattle.dh_tables.specs.Accessors.{accessor_of};
    ghost use Rattle.dh_tables.specs.PartTable.{part_adding, part_is_adding, part_shape};

    ghost shape = { part_shape };

    ghost order = { pair_cmp nat_cmp text_cmp };

    ghost since = { First };

    fn came_with() -> Version {
        Version::First
    }

    ghost adding = { part_adding };

    ghost accessor = { accessor_of Parts };

    ghost is_kind = { itself Parts };

    fn insert_text() -> &'static str {
        text_of!(insert, part, "")
    }

    fn put(self, books: &mut Books) -> Result<(), AllocError> {
        books.put_part(self)
    }

    ghost has_shape = { record { is_row_is = λ r. refl; row_in_is = λ r. refl; key_is = λ x. refl } };

    ghost is_adding = { part_is_adding };
}

impl Listed for Part {
    ghost use Rattle.dh_tables.specs.PartTable.{part_named, part_is_listing};

    ghost named = { part_named };

    fn select_rows_text() -> &'static str {
        text_of!(select, part, "")
    }

    fn select_rowids_text() -> &'static str {
        "SELECT rowid FROM part"
    }

    fn held_count(books: &Books) -> usize {
        books.parts().len()
    }

    ghost is_listing = { part_is_listing };
}

/// The part of the run of this month at this branch.
#[derive(Drop)]
pub struct PartOf {
    pub month: EntryMonth,
    pub branch: Id,
}

impl PlainLook for PartOf {
    ghost use Rattle.dh_tables.specs.PartTable.{part_of, part_of_is};

    type Record = Part;

    ghost question = { part_of };

    fn asked_text() -> &'static str {
        text_of!(select, part, " WHERE month = ?1 AND branch_no = ?2")
    }

    fn values(&self, alloc: Global) -> Result<Vec<ValueRef<'_>>, AllocError> {
        [
            ValueRef::Int(i64::from(self.month.number())),
            ValueRef::Text(self.branch.as_str().as_bytes()),
        ]
        .to_vec(alloc)
    }

    ghost is_question = { part_of_is };
}

/// The parts of the run of this month.
#[derive(Drop)]
pub struct PartsOfMonth {
    pub month: EntryMonth,
}

impl PlainLook for PartsOfMonth {
    ghost use Rattle.dh_tables.specs.PartTable.{parts_of_month, parts_of_month_is};

    type Record = Part;

    ghost question = { parts_of_month };

    fn asked_text() -> &'static str {
        text_of!(select, part, " WHERE month = ?1")
    }

    fn values(&self, alloc: Global) -> Result<Vec<ValueRef<'_>>, AllocError> {
        [ValueRef::Int(i64::from(self.month.number()))].to_vec(alloc)
    }

    ghost is_question = { parts_of_month_is };
}
