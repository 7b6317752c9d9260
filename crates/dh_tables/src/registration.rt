//! Registrations in their table.

use crate::{Listed, PlainLook, Tabled};
use dh_books::Books;
use dh_ddl::text_of;
use dh_types::{Id, Registration, Version};
use sqlite::types::ValueRef;
use std::alloc::{AllocError, Global};

impl Tabled for Registration {
    ghost use Rattle.dh_types.specs.declared.version.Version.TheVariants.{First};
    ghost use Rattle.std.specs.Prelude.{refl};
    ghost use Rattle.dh_model.specs.Books.{pair_cmp, text_cmp};
    ghost use Rattle.dh_model.specs.Kinds.{Registrations};
    ghost use Rattle.dh_tables.specs.Kinds.{itself};
    ghost use Rattle.dh_tables.specs.Accessors.{accessor_of};
    ghost use Rattle.dh_tables.specs.RegistrationTable.{registration_adding, registration_is_adding, registration_shape};

    ghost shape = { registration_shape };

    ghost order = { pair_cmp text_cmp text_cmp };

    ghost since = { First };

    fn came_with() -> Version {
        Version::First
    }

    ghost adding = { registration_adding };

    ghost accessor = { accessor_of Registrations };

    ghost is_kind = { itself Registrations };

    fn insert_text() -> &'static str {
        text_of!(insert, registration, "")
    }

    fn put(self, books: &mut Books) -> Result<(), AllocError> {
        books.put_registration(self)
    }

    ghost has_shape = { record { is_row_is = λ r. refl; row_in_is = λ r. refl; key_is = λ x. refl } };

    ghost is_adding = { registration_is_adding };
}

impl Listed for Registration {
    ghost use Rattle.dh_tables.specs.RegistrationTable.{registration_named, registration_is_listing};

    ghost named = { registration_named };

    fn select_rows_text() -> &'static str {
        text_of!(select, registration, "")
    }

    fn select_rowids_text() -> &'static str {
        "SELECT rowid FROM registration"
    }

    fn held_count(books: &Books) -> usize {
        books.registrations().len()
    }

    ghost is_listing = { registration_is_listing };
}

/// The registration of this client at this branch.
#[derive(Drop)]
pub struct RegistrationAt {
    pub client: Id,
    pub branch: Id,
}

impl PlainLook for RegistrationAt {
    ghost use Rattle.dh_tables.specs.RegistrationTable.{registration_at, registration_at_is};

    type Record = Registration;

    ghost question = { registration_at };

    fn asked_text() -> &'static str {
        text_of!(
            select,
            registration,
            " WHERE client_no = ?1 AND branch_no = ?2"
        )
    }

    fn values(&self, alloc: Global) -> Result<Vec<ValueRef<'_>>, AllocError> {
        [
            ValueRef::Text(self.client.as_str().as_bytes()),
            ValueRef::Text(self.branch.as_str().as_bytes()),
        ]
        .to_vec(alloc)
    }

    ghost is_question = { registration_at_is };
}
