//! Runs in their table.

use crate::{Listed, PlainLook, Tabled};
use dh_books::Books;
use dh_ddl::text_of;
use dh_types::{EntryMonth, Key, Run, Version};
use sqlite::types::ValueRef;
use std::alloc::{AllocError, Global};

impl Tabled for Run {
    ghost use Rattle.dh_types.specs.declared.version.Version.TheVariants.{First};
    ghost use Rattle.std.specs.Prelude.{refl};
    ghost use Rattle.std.specs.Ordering.{nat_cmp};
    ghost use Rattle.dh_model.specs.Kinds.{Runs};
    ghost use Rattle.dh_tables.specs.Kinds.{itself};
    ghost use Rattle.dh_tables.specs.Accessors.{accessor_of};
    ghost use Rattle.dh_tables.specs.RunTable.{run_adding, run_is_adding, run_shape};

    ghost shape = { run_shape };

    ghost order = { nat_cmp };

    ghost since = { First };

    fn came_with() -> Version {
        Version::First
    }

    ghost adding = { run_adding };

    ghost accessor = { accessor_of Runs };

    ghost is_kind = { itself Runs };

    fn insert_text() -> &'static str {
        text_of!(insert, run, "")
    }

    fn put(self, books: &mut Books) -> Result<(), AllocError> {
        books.put_run(self)
    }

    ghost has_shape = { record { is_row_is = λ r. refl; row_in_is = λ r. refl; key_is = λ x. refl } };

    ghost is_adding = { run_is_adding };
}

impl Listed for Run {
    ghost use Rattle.dh_tables.specs.RunTable.{run_named, run_is_listing};

    ghost named = { run_named };

    fn select_rows_text() -> &'static str {
        text_of!(select, run, "")
    }

    fn select_rowids_text() -> &'static str {
        "SELECT rowid FROM run"
    }

    fn held_count(books: &Books) -> usize {
        books.runs().len()
    }

    ghost is_listing = { run_is_listing };
}

/// The run of this month.
#[derive(Drop)]
pub struct RunOf {
    pub month: EntryMonth,
}

impl PlainLook for RunOf {
    ghost use Rattle.dh_tables.specs.RunTable.{run_of, run_of_is};

    type Record = Run;

    ghost question = { run_of };

    fn asked_text() -> &'static str {
        text_of!(select, run, " WHERE month = ?1")
    }

    fn values(&self, alloc: Global) -> Result<Vec<ValueRef<'_>>, AllocError> {
        [ValueRef::Int(i64::from(self.month.number()))].to_vec(alloc)
    }

    ghost is_question = { run_of_is };
}

/// The run with this request key.
#[derive(Drop)]
pub struct RunKeyed {
    pub key: Key,
}

impl PlainLook for RunKeyed {
    ghost use Rattle.dh_tables.specs.RunTable.{run_keyed, run_keyed_is};

    type Record = Run;

    ghost question = { run_keyed };

    fn asked_text() -> &'static str {
        text_of!(select, run, " WHERE req_key = ?1")
    }

    fn values(&self, alloc: Global) -> Result<Vec<ValueRef<'_>>, AllocError> {
        [ValueRef::Text(self.key.as_str().as_bytes())].to_vec(alloc)
    }

    ghost is_question = { run_keyed_is };
}
