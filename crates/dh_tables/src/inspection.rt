//! Inspections in their table.

use crate::{Listed, Look, Tabled};
use dh_books::Books;
use dh_ddl::text_of;
use dh_types::{EntryDay, Id, Inspection, Version};
use sqlite::types::ValueRef;
use std::alloc::{AllocError, Global};

impl Tabled for Inspection {
    ghost use Rattle.dh_types.specs.declared.version.Version.TheVariants.{First};
    ghost use Rattle.std.specs.Prelude.{refl};
    ghost use Rattle.std.specs.Ordering.{nat_cmp};
    ghost use Rattle.dh_model.specs.Books.{pair_cmp, text_cmp};
    ghost use Rattle.dh_model.specs.Kinds.{Inspections};
    ghost use Rattle.dh_tables.specs.Kinds.{itself};
    ghost use Rattle.dh_tables.specs.Accessors.{accessor_of};
    ghost use Rattle.dh_tables.specs.InspectionTable.{inspection_adding, inspection_is_adding, inspection_shape};

    ghost shape = { inspection_shape };

    ghost order = { pair_cmp text_cmp nat_cmp };

    ghost since = { First };

    fn came_with() -> Version {
        Version::First
    }

    ghost adding = { inspection_adding };

    ghost accessor = { accessor_of Inspections };

    ghost is_kind = { itself Inspections };

    fn insert_text() -> &'static str {
        text_of!(insert, inspection, "")
    }

    fn put(self, books: &mut Books) -> Result<(), AllocError> {
        books.put_inspection(self)
    }

    ghost has_shape = { record { is_row_is = λ r. refl; row_in_is = λ r. refl; key_is = λ x. refl } };

    ghost is_adding = { inspection_is_adding };
}

impl Listed for Inspection {
    ghost use Rattle.dh_tables.specs.InspectionTable.{inspection_named, inspection_is_listing};

    ghost named = { inspection_named };

    fn select_rows_text() -> &'static str {
        text_of!(select, inspection, "")
    }

    fn select_rowids_text() -> &'static str {
        "SELECT rowid FROM inspection"
    }

    fn held_count(books: &Books) -> usize {
        books.inspections().len()
    }

    ghost is_listing = { inspection_is_listing };
}

/// The inspection of this property on this day.
#[derive(Drop)]
pub struct InspectionOf {
    pub property: Id,
    pub day: EntryDay,
}

impl Look for InspectionOf {
    ghost use Rattle.std.specs.Prelude.{◌∷◌, [], nat_eq, ◌&&◌};
    ghost use Rattle.sqlite_value.specs.declared.value.Value.TheVariants.{Text};
    ghost use Rattle.dh_model.specs.Checks.{is_same_text};
    ghost use Rattle.dh_days.specs.Days.{IsEntryDay, day_text};
    ghost use Rattle.dh_tables.specs.InspectionTable.{inspection_of, inspection_of_is};

    type Record = Inspection;

    ghost asks = { λ q n. is_same_text n.property q.property && nat_eq n.day q.day };

    ghost asking = { inspection_of };

    ghost given = { λ q. Text q.property ∷ Text (day_text q.day) ∷ [] };

    ghost day_column = { λ q. day_text q.day };

    ghost can_ask = { λ q. IsEntryDay q.day };

    fn text() -> &'static str {
        text_of!(select, inspection, " WHERE property_no = ?1 AND day = ?2")
    }

    fn day_bytes(&self, alloc: Global) -> Result<Vec<u8>, AllocError> {
        let text = format!(in alloc; "{}", self.day)?;
        Ok(text.into_bytes())
    }

    fn params<'a>(&'a self, alloc: Global, day: &'a [u8]) -> Result<Vec<ValueRef<'a>>, AllocError> {
        // The call tells that it is a day.
        let _ = self.day.day();
        [
            ValueRef::Text(self.property.as_str().as_bytes()),
            ValueRef::Text(day),
        ]
        .to_vec(alloc)
    }

    ghost is_asking = { inspection_of_is };
}
