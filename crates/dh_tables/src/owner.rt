//! Owners in their table.

use crate::{Listed, PlainLook, Tabled};
use dh_books::Books;
use dh_ddl::text_of;
use dh_types::{Id, Owner, Version};
use sqlite::types::ValueRef;
use std::alloc::{AllocError, Global};

impl Tabled for Owner {
    ghost use Rattle.dh_types.specs.declared.version.Version.TheVariants.{First};
    ghost use Rattle.std.specs.Prelude.{refl};
    ghost use Rattle.dh_model.specs.Books.{text_cmp};
    ghost use Rattle.dh_model.specs.Kinds.{Owners};
    ghost use Rattle.dh_tables.specs.Kinds.{itself};
    ghost use Rattle.dh_tables.specs.Accessors.{accessor_of};
    ghost use Rattle.dh_tables.specs.OwnerTable.{owner_adding, owner_is_adding, owner_shape};

    ghost shape = { owner_shape };

    ghost order = { text_cmp };

    ghost since = { First };

    fn came_with() -> Version {
        Version::First
    }

    ghost adding = { owner_adding };

    ghost accessor = { accessor_of Owners };

    ghost is_kind = { itself Owners };

    fn insert_text() -> &'static str {
        text_of!(insert, owner, "")
    }

    fn put(self, books: &mut Books) -> Result<(), AllocError> {
        books.put_owner(self)
    }

    ghost has_shape = { record { is_row_is = λ r. refl; row_in_is = λ r. refl; key_is = λ x. refl } };

    ghost is_adding = { owner_is_adding };
}

impl Listed for Owner {
    ghost use Rattle.dh_tables.specs.OwnerTable.{owner_named, owner_is_listing};

    ghost named = { owner_named };

    fn select_rows_text() -> &'static str {
        text_of!(select, owner, "")
    }

    fn select_rowids_text() -> &'static str {
        "SELECT rowid FROM owner"
    }

    fn held_count(books: &Books) -> usize {
        books.owners().len()
    }

    ghost is_listing = { owner_is_listing };
}

/// The owner with this number.
#[derive(Drop)]
pub struct OwnerNumbered {
    pub number: Id,
}

impl PlainLook for OwnerNumbered {
    ghost use Rattle.dh_tables.specs.OwnerTable.{owner_numbered, owner_numbered_is};

    type Record = Owner;

    ghost question = { owner_numbered };

    fn asked_text() -> &'static str {
        text_of!(select, owner, " WHERE owner_no = ?1")
    }

    fn values(&self, alloc: Global) -> Result<Vec<ValueRef<'_>>, AllocError> {
        [ValueRef::Text(self.number.as_str().as_bytes())].to_vec(alloc)
    }

    ghost is_question = { owner_numbered_is };
}
