//! Properties in their table.

use crate::{Listed, PlainLook, Tabled};
use dh_books::Books;
use dh_ddl::text_of;
use dh_types::{Id, Property, Version};
use sqlite::types::ValueRef;
use std::alloc::{AllocError, Global};

impl Tabled for Property {
    ghost use Rattle.dh_types.specs.declared.version.Version.TheVariants.{First};
    ghost use Rattle.std.specs.Prelude.{refl};
    ghost use Rattle.dh_model.specs.Books.{text_cmp};
    ghost use Rattle.dh_model.specs.Kinds.{Properties};
    ghost use Rattle.dh_tables.specs.Kinds.{itself};
    ghost use Rattle.dh_tables.specs.Accessors.{accessor_of};
    ghost use Rattle.dh_tables.specs.PropertyTable.{property_adding, property_is_adding, property_shape};

    ghost shape = { property_shape };

    ghost order = { text_cmp };

    ghost since = { First };

    fn came_with() -> Version {
        Version::First
    }

    ghost adding = { property_adding };

    ghost accessor = { accessor_of Properties };

    ghost is_kind = { itself Properties };

    fn insert_text() -> &'static str {
        text_of!(insert, property, "")
    }

    fn put(self, books: &mut Books) -> Result<(), AllocError> {
        books.put_property(self)
    }

    ghost has_shape = { record { is_row_is = λ r. refl; row_in_is = λ r. refl; key_is = λ x. refl } };

    ghost is_adding = { property_is_adding };
}

impl Listed for Property {
    ghost use Rattle.dh_tables.specs.PropertyTable.{property_named, property_is_listing};

    ghost named = { property_named };

    fn select_rows_text() -> &'static str {
        text_of!(select, property, "")
    }

    fn select_rowids_text() -> &'static str {
        "SELECT rowid FROM property"
    }

    fn held_count(books: &Books) -> usize {
        books.properties().len()
    }

    ghost is_listing = { property_is_listing };
}

/// The property with this number.
#[derive(Drop)]
pub struct PropertyNumbered {
    pub number: Id,
}

impl PlainLook for PropertyNumbered {
    ghost use Rattle.dh_tables.specs.PropertyTable.{property_numbered, property_numbered_is};

    type Record = Property;

    ghost question = { property_numbered };

    fn asked_text() -> &'static str {
        text_of!(select, property, " WHERE property_no = ?1")
    }

    fn values(&self, alloc: Global) -> Result<Vec<ValueRef<'_>>, AllocError> {
        [ValueRef::Text(self.number.as_str().as_bytes())].to_vec(alloc)
    }

    ghost is_question = { property_numbered_is };
}

/// The properties that this member of staff manages.
#[derive(Drop)]
pub struct PropertiesManaged {
    pub staff: Id,
}

impl PlainLook for PropertiesManaged {
    ghost use Rattle.dh_tables.specs.PropertyTable.{properties_managed, properties_managed_is};

    type Record = Property;

    ghost question = { properties_managed };

    fn asked_text() -> &'static str {
        text_of!(select, property, " WHERE staff_no = ?1")
    }

    fn values(&self, alloc: Global) -> Result<Vec<ValueRef<'_>>, AllocError> {
        [ValueRef::Text(self.staff.as_str().as_bytes())].to_vec(alloc)
    }

    ghost is_question = { properties_managed_is };
}

/// The properties of this owner.
#[derive(Drop)]
pub struct PropertiesOfOwner {
    pub owner: Id,
}

impl PlainLook for PropertiesOfOwner {
    ghost use Rattle.dh_tables.specs.PropertyTable.{properties_of_owner, properties_of_owner_is};

    type Record = Property;

    ghost question = { properties_of_owner };

    fn asked_text() -> &'static str {
        text_of!(select, property, " WHERE owner_no = ?1")
    }

    fn values(&self, alloc: Global) -> Result<Vec<ValueRef<'_>>, AllocError> {
        [ValueRef::Text(self.owner.as_str().as_bytes())].to_vec(alloc)
    }

    ghost is_question = { properties_of_owner_is };
}

/// The properties of this branch.
#[derive(Drop)]
pub struct PropertiesOfBranch {
    pub branch: Id,
}

impl PlainLook for PropertiesOfBranch {
    ghost use Rattle.dh_tables.specs.PropertyTable.{properties_of_branch, properties_of_branch_is};

    type Record = Property;

    ghost question = { properties_of_branch };

    fn asked_text() -> &'static str {
        text_of!(select, property, " WHERE branch_no = ?1")
    }

    fn values(&self, alloc: Global) -> Result<Vec<ValueRef<'_>>, AllocError> {
        [ValueRef::Text(self.branch.as_str().as_bytes())].to_vec(alloc)
    }

    ghost is_question = { properties_of_branch_is };
}
