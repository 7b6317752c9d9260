//! Viewings in their table.

use crate::{Listed, PlainLook, Tabled};
use dh_books::Books;
use dh_ddl::text_of;
use dh_types::{Id, Version, Viewing};
use sqlite::types::ValueRef;
use std::alloc::{AllocError, Global};

impl Tabled for Viewing {
    ghost use Rattle.dh_types.specs.declared.version.Version.TheVariants.{First};
    ghost use Rattle.std.specs.Prelude.{refl};
    ghost use Rattle.dh_model.specs.Books.{pair_cmp, text_cmp};
    ghost use Rattle.dh_model.specs.Kinds.{Viewings};
    ghost use Rattle.dh_tables.specs.Kinds.{itself};
    ghost use Rattle.dh_tables.specs.Accessors.{accessor_of};
    ghost use Rattle.dh_tables.specs.ViewingTable.{viewing_adding, viewing_is_adding, viewing_shape};

    ghost shape = { viewing_shape };

    ghost order = { pair_cmp text_cmp text_cmp };

    ghost since = { First };

    fn came_with() -> Version {
        Version::First
    }

    ghost adding = { viewing_adding };

    ghost accessor = { accessor_of Viewings };

    ghost is_kind = { itself Viewings };

    fn insert_text() -> &'static str {
        text_of!(insert, viewing, "")
    }

    fn put(self, books: &mut Books) -> Result<(), AllocError> {
        books.put_viewing(self)
    }

    ghost has_shape = { record { is_row_is = λ r. refl; row_in_is = λ r. refl; key_is = λ x. refl } };

    ghost is_adding = { viewing_is_adding };
}

impl Listed for Viewing {
    ghost use Rattle.dh_tables.specs.ViewingTable.{viewing_named, viewing_is_listing};

    ghost named = { viewing_named };

    fn select_rows_text() -> &'static str {
        text_of!(select, viewing, "")
    }

    fn select_rowids_text() -> &'static str {
        "SELECT rowid FROM viewing"
    }

    fn held_count(books: &Books) -> usize {
        books.viewings().len()
    }

    ghost is_listing = { viewing_is_listing };
}

/// The viewing of this property by this client.
#[derive(Drop)]
pub struct ViewingOf {
    pub client: Id,
    pub property: Id,
}

impl PlainLook for ViewingOf {
    ghost use Rattle.dh_tables.specs.ViewingTable.{viewing_of, viewing_of_is};

    type Record = Viewing;

    ghost question = { viewing_of };

    fn asked_text() -> &'static str {
        text_of!(
            select,
            viewing,
            " WHERE client_no = ?1 AND property_no = ?2"
        )
    }

    fn values(&self, alloc: Global) -> Result<Vec<ValueRef<'_>>, AllocError> {
        [
            ValueRef::Text(self.client.as_str().as_bytes()),
            ValueRef::Text(self.property.as_str().as_bytes()),
        ]
        .to_vec(alloc)
    }

    ghost is_question = { viewing_of_is };
}
