//! Leases in their table.

use crate::{Listed, Look, PlainLook, Tabled};
use dh_books::Books;
use dh_ddl::text_of;
use dh_types::{EntryDay, Id, Lease, LeaseNo, Version};
use sqlite::types::ValueRef;
use std::alloc::{AllocError, Global};

impl Tabled for Lease {
    ghost use Rattle.dh_types.specs.declared.version.Version.TheVariants.{First};
    ghost use Rattle.std.specs.Prelude.{refl};
    ghost use Rattle.std.specs.Ordering.{nat_cmp};
    ghost use Rattle.dh_model.specs.Kinds.{Leases};
    ghost use Rattle.dh_tables.specs.Kinds.{itself};
    ghost use Rattle.dh_tables.specs.Accessors.{accessor_of};
    ghost use Rattle.dh_tables.specs.LeaseTable.{lease_adding, lease_is_adding, lease_shape};

    ghost shape = { lease_shape };

    ghost order = { nat_cmp };

    ghost since = { First };

    fn came_with() -> Version {
        Version::First
    }

    ghost adding = { lease_adding };

    ghost accessor = { accessor_of Leases };

    ghost is_kind = { itself Leases };

    fn insert_text() -> &'static str {
        text_of!(insert, lease, "")
    }

    fn put(self, books: &mut Books) -> Result<(), AllocError> {
        books.put_lease(self)
    }

    ghost has_shape = { record { is_row_is = λ r. refl; row_in_is = λ r. refl; key_is = λ x. refl } };

    ghost is_adding = { lease_is_adding };
}

impl Listed for Lease {
    ghost use Rattle.dh_tables.specs.LeaseTable.{lease_named, lease_is_listing};

    ghost named = { lease_named };

    fn select_rows_text() -> &'static str {
        text_of!(select, lease, "")
    }

    fn select_rowids_text() -> &'static str {
        "SELECT rowid FROM lease"
    }

    fn held_count(books: &Books) -> usize {
        books.leases().len()
    }

    ghost is_listing = { lease_is_listing };
}

/// The lease with this number.
#[derive(Drop)]
pub struct LeaseNumbered {
    pub number: LeaseNo,
}

impl PlainLook for LeaseNumbered {
    ghost use Rattle.dh_tables.specs.LeaseTable.{lease_numbered, lease_numbered_is};

    type Record = Lease;

    ghost question = { lease_numbered };

    fn asked_text() -> &'static str {
        text_of!(select, lease, " WHERE lease_no = ?1")
    }

    fn values(&self, alloc: Global) -> Result<Vec<ValueRef<'_>>, AllocError> {
        [ValueRef::Int(i64::from(self.number.number()))].to_vec(alloc)
    }

    ghost is_question = { lease_numbered_is };
}

/// The leases of this property.
#[derive(Drop)]
pub struct LeasesOfProperty {
    pub property: Id,
}

impl PlainLook for LeasesOfProperty {
    ghost use Rattle.dh_tables.specs.LeaseTable.{leases_of_property, leases_of_property_is};

    type Record = Lease;

    ghost question = { leases_of_property };

    fn asked_text() -> &'static str {
        text_of!(select, lease, " WHERE property_no = ?1")
    }

    fn values(&self, alloc: Global) -> Result<Vec<ValueRef<'_>>, AllocError> {
        [ValueRef::Text(self.property.as_str().as_bytes())].to_vec(alloc)
    }

    ghost is_question = { leases_of_property_is };
}

/// The leases of this client that begin on this day.
#[derive(Drop)]
pub struct LeasesOfClientFrom {
    pub client: Id,
    pub start: EntryDay,
}

impl Look for LeasesOfClientFrom {
    ghost use Rattle.std.specs.Prelude.{◌∷◌, [], nat_eq, ◌&&◌};
    ghost use Rattle.sqlite_value.specs.declared.value.Value.TheVariants.{Text};
    ghost use Rattle.dh_model.specs.Checks.{is_same_text};
    ghost use Rattle.dh_days.specs.Days.{IsEntryDay, day_text};
    ghost use Rattle.dh_tables.specs.LeaseTable.{leases_of_client_from, leases_of_client_from_is};

    type Record = Lease;

    ghost asks = { λ q l. is_same_text l.terms.client q.client && nat_eq l.terms.start q.start };

    ghost asking = { leases_of_client_from };

    ghost given = { λ q. Text q.client ∷ Text (day_text q.start) ∷ [] };

    ghost day_column = { λ q. day_text q.start };

    ghost can_ask = { λ q. IsEntryDay q.start };

    fn text() -> &'static str {
        text_of!(select, lease, " WHERE client_no = ?1 AND start_day = ?2")
    }

    fn day_bytes(&self, alloc: Global) -> Result<Vec<u8>, AllocError> {
        let text = format!(in alloc; "{}", self.start)?;
        Ok(text.into_bytes())
    }

    fn params<'a>(&'a self, alloc: Global, day: &'a [u8]) -> Result<Vec<ValueRef<'a>>, AllocError> {
        // The call tells that it is a day.
        let _ = self.start.day();
        [
            ValueRef::Text(self.client.as_str().as_bytes()),
            ValueRef::Text(day),
        ]
        .to_vec(alloc)
    }

    ghost is_asking = { leases_of_client_from_is };
}
