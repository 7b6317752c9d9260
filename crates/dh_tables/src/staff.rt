//! Members of staff in their table.

use crate::{Listed, PlainLook, Tabled};
use dh_books::Books;
use dh_ddl::text_of;
use dh_types::{Id, Staff, Version};
use sqlite::types::ValueRef;
use std::alloc::{AllocError, Global};

impl Tabled for Staff {
    ghost use Rattle.dh_types.specs.declared.version.Version.TheVariants.{First};
    ghost use Rattle.std.specs.Prelude.{refl};
    ghost use Rattle.dh_model.specs.Books.{text_cmp};
    ghost use Rattle.dh_model.specs.Kinds.{Staff};
    ghost use Rattle.dh_tables.specs.Kinds.{itself};
    ghost use Rattle.dh_tables.specs.Accessors.{accessor_of};
    ghost use Rattle.dh_tables.specs.StaffTable.{staff_adding, staff_is_adding, staff_shape};

    ghost shape = { staff_shape };

    ghost order = { text_cmp };

    ghost since = { First };

    fn came_with() -> Version {
        Version::First
    }

    ghost adding = { staff_adding };

    ghost accessor = { accessor_of Staff };

    ghost is_kind = { itself Staff };

    fn insert_text() -> &'static str {
        text_of!(insert, staff, "")
    }

    fn put(self, books: &mut Books) -> Result<(), AllocError> {
        books.put_member(self)
    }

    ghost has_shape = { record { is_row_is = λ r. refl; row_in_is = λ r. refl; key_is = λ x. refl } };

    ghost is_adding = { staff_is_adding };
}

impl Listed for Staff {
    ghost use Rattle.dh_tables.specs.StaffTable.{staff_named, staff_is_listing};

    ghost named = { staff_named };

    fn select_rows_text() -> &'static str {
        text_of!(select, staff, "")
    }

    fn select_rowids_text() -> &'static str {
        "SELECT rowid FROM staff"
    }

    fn held_count(books: &Books) -> usize {
        books.staff().len()
    }

    ghost is_listing = { staff_is_listing };
}

/// The member of staff with this number.
#[derive(Drop)]
pub struct MemberNumbered {
    pub number: Id,
}

impl PlainLook for MemberNumbered {
    ghost use Rattle.dh_tables.specs.StaffTable.{member_numbered, member_numbered_is};

    type Record = Staff;

    ghost question = { member_numbered };

    fn asked_text() -> &'static str {
        text_of!(select, staff, " WHERE staff_no = ?1")
    }

    fn values(&self, alloc: Global) -> Result<Vec<ValueRef<'_>>, AllocError> {
        [ValueRef::Text(self.number.as_str().as_bytes())].to_vec(alloc)
    }

    ghost is_question = { member_numbered_is };
}
