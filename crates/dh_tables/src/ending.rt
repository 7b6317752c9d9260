//! Early endings of leases in their table.

use crate::{Listed, PlainLook, Tabled};
use dh_books::Books;
use dh_ddl::text_of;
use dh_types::{Ending, LeaseNo, Version};
use sqlite::types::ValueRef;
use std::alloc::{AllocError, Global};

impl Tabled for Ending {
    ghost use Rattle.dh_types.specs.declared.version.Version.TheVariants.{Second};
    ghost use Rattle.std.specs.Prelude.{refl};
    ghost use Rattle.std.specs.Ordering.{nat_cmp};
    ghost use Rattle.dh_model.specs.Kinds.{Endings};
    ghost use Rattle.dh_tables.specs.Kinds.{itself};
    ghost use Rattle.dh_tables.specs.Accessors.{accessor_of};
    ghost use Rattle.dh_tables.specs.EndingTable.{ending_adding, ending_is_adding, ending_shape};

    ghost shape = { ending_shape };

    ghost order = { nat_cmp };

    ghost since = { Second };

    fn came_with() -> Version {
        Version::Second
    }

    ghost adding = { ending_adding };

    ghost accessor = { accessor_of Endings };

    ghost is_kind = { itself Endings };

    fn insert_text() -> &'static str {
        text_of!(insert, ending, "")
    }

    fn put(self, books: &mut Books) -> Result<(), AllocError> {
        books.put_ending(self)
    }

    ghost has_shape = { record { is_row_is = λ r. refl; row_in_is = λ r. refl; key_is = λ x. refl } };

    ghost is_adding = { ending_is_adding };
}

impl Listed for Ending {
    ghost use Rattle.dh_tables.specs.EndingTable.{ending_named, ending_is_listing};

    ghost named = { ending_named };

    fn select_rows_text() -> &'static str {
        text_of!(select, ending, "")
    }

    fn select_rowids_text() -> &'static str {
        "SELECT rowid FROM ending"
    }

    fn held_count(books: &Books) -> usize {
        books.endings().len()
    }

    ghost is_listing = { ending_is_listing };
}

/// The ending of this lease.
#[derive(Drop)]
pub struct EndingOf {
    pub lease: LeaseNo,
}

impl PlainLook for EndingOf {
    ghost use Rattle.dh_tables.specs.EndingTable.{ending_of, ending_of_is};

    type Record = Ending;

    ghost question = { ending_of };

    fn asked_text() -> &'static str {
        text_of!(select, ending, " WHERE lease_no = ?1")
    }

    fn values(&self, alloc: Global) -> Result<Vec<ValueRef<'_>>, AllocError> {
        [ValueRef::Int(i64::from(self.lease.number()))].to_vec(alloc)
    }

    ghost is_question = { ending_of_is };
}
