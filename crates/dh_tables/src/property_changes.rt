//! A property's manager, and its rent, changed in their table.

ghost use Rattle.std.specs.Prelude.{◌≡◌, true, IfSome};
ghost use Rattle.sqlite_value.specs.Value.{owned};
ghost use Rattle.sqlite.specs.Values.{bound_value};
ghost use Rattle.dh_values.specs.Texts.{is_id};
ghost use Rattle.dh_rows.specs.Cells.{optional_text};

use crate::Amend;
use dh_types::{Assignment, Id, Property, RentChange};
use sqlite::types::ValueRef;
use std::alloc::{AllocError, Global};

// The code, or NULL where there is none.
fn optional_id(id: &Option<Id>) -> ValueRef<'_>
    ensures value { bound_value (owned result) ≡ optional_text id.now }
    ensures known { IfSome id.now (λ code. is_id code ≡ true) }
{
    match id {
        Some(id) => ValueRef::Text(id.as_str().as_bytes()),
        None => ValueRef::Null,
    }
}

impl Amend for Assignment {
    ghost use Rattle.std.specs.Prelude.{◌≡◌, true, IfSome};
    ghost use Rattle.dh_values.specs.Texts.{is_id};
    ghost use Rattle.dh_tables.specs.PropertyChanges.{manager_amending, manager_is};

    type Record = Property;

    ghost key = { λ q. q.property };

    ghost amended = { λ q p. record p { staff = q.staff } };

    ghost amending = { manager_amending };

    ghost can_amend = { λ q. IfSome q.staff (λ id. is_id id ≡ true) };

    fn text() -> &'static str {
        "UPDATE property SET staff_no = ?2 WHERE property_no = ?1"
    }

    fn params(&self, alloc: Global) -> Result<Vec<ValueRef<'_>>, AllocError> {
        [
            ValueRef::Text(self.property.as_str().as_bytes()),
            optional_id(&self.staff),
        ]
        .to_vec(alloc)
    }

    ghost is_amending = { manager_is };
}

impl Amend for RentChange {
    ghost use Rattle.dh_values.specs.Money.{IsRent};
    ghost use Rattle.dh_tables.specs.PropertyChanges.{rent_amending, rent_is};

    type Record = Property;

    ghost key = { λ q. q.property };

    ghost amended = { λ q p. record p { rent = q.rent } };

    ghost amending = { rent_amending };

    ghost can_amend = { λ q. IsRent q.rent };

    fn text() -> &'static str {
        "UPDATE property SET rent = ?2 WHERE property_no = ?1"
    }

    fn params(&self, alloc: Global) -> Result<Vec<ValueRef<'_>>, AllocError> {
        [
            ValueRef::Text(self.property.as_str().as_bytes()),
            ValueRef::Int(i64::from(self.rent.pence())),
        ]
        .to_vec(alloc)
    }

    ghost is_amending = { rent_is };
}
