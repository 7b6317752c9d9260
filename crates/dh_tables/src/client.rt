//! Clients in their table.

use crate::{Listed, PlainLook, Tabled};
use dh_books::Books;
use dh_ddl::text_of;
use dh_types::{Client, Id, Version};
use sqlite::types::ValueRef;
use std::alloc::{AllocError, Global};

impl Tabled for Client {
    ghost use Rattle.dh_types.specs.declared.version.Version.TheVariants.{First};
    ghost use Rattle.std.specs.Prelude.{refl};
    ghost use Rattle.dh_model.specs.Books.{text_cmp};
    ghost use Rattle.dh_model.specs.Kinds.{Clients};
    ghost use Rattle.dh_tables.specs.Kinds.{itself};
    ghost use Rattle.dh_tables.specs.Accessors.{accessor_of};
    ghost use Rattle.dh_tables.specs.ClientTable.{client_adding, client_is_adding, client_shape};

    ghost shape = { client_shape };

    ghost order = { text_cmp };

    ghost since = { First };

    fn came_with() -> Version {
        Version::First
    }

    ghost adding = { client_adding };

    ghost accessor = { accessor_of Clients };

    ghost is_kind = { itself Clients };

    fn insert_text() -> &'static str {
        text_of!(insert, client, "")
    }

    fn put(self, books: &mut Books) -> Result<(), AllocError> {
        books.put_client(self)
    }

    ghost has_shape = { record { is_row_is = λ r. refl; row_in_is = λ r. refl; key_is = λ x. refl } };

    ghost is_adding = { client_is_adding };
}

impl Listed for Client {
    ghost use Rattle.dh_tables.specs.ClientTable.{client_named, client_is_listing};

    ghost named = { client_named };

    fn select_rows_text() -> &'static str {
        text_of!(select, client, "")
    }

    fn select_rowids_text() -> &'static str {
        "SELECT rowid FROM client"
    }

    fn held_count(books: &Books) -> usize {
        books.clients().len()
    }

    ghost is_listing = { client_is_listing };
}

/// The client with this number.
#[derive(Drop)]
pub struct ClientNumbered {
    pub number: Id,
}

impl PlainLook for ClientNumbered {
    ghost use Rattle.dh_tables.specs.ClientTable.{client_numbered, client_numbered_is};

    type Record = Client;

    ghost question = { client_numbered };

    fn asked_text() -> &'static str {
        text_of!(select, client, " WHERE client_no = ?1")
    }

    fn values(&self, alloc: Global) -> Result<Vec<ValueRef<'_>>, AllocError> {
        [ValueRef::Text(self.number.as_str().as_bytes())].to_vec(alloc)
    }

    ghost is_question = { client_numbered_is };
}
