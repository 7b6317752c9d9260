//! Looks at tables that came with the second version. A file of the first has none of them.

ghost use Rattle.std.specs.Prelude.{◌≡◌, OnOk};
ghost use Rattle.std.specs.FinMap as fin;
ghost use Rattle.sqlite.specs.State.{HasCleanDisk};
ghost use Rattle.sqlite.specs.Held.{state};
ghost use Rattle.dh_types.specs.declared.version.Version.TheVariants.{Second};
ghost use Rattle.dh_schema.specs.Store.{tables};
ghost use Rattle.dh_schema.specs.Looked.{Brings, with_lettings};
ghost use Rattle.dh_schema.specs.Months.{IsReadyOf};
ghost use Rattle.dh_schema.specs.Reading.{OnlyReads};

use crate::StoreFault;
use crate::looks::{look, look_at_all};
use dh_books::Books;
use dh_tables::{Listed, Look};
use dh_types::{Ending, Lease, Property, Version};
use sqlite::{Alter, Connection};
use std::alloc::Global;

/// Puts all records of a kind that came with the second version into books that have none of it; tables of the first version have none.
pub fn look_at_later<R: Listed, S: Alter>(
    alloc: Global,
    conn: &mut Connection<S>,
    version: Version,
    books: &mut Books,
) -> Result<(), StoreFault>
    requires ready { HasCleanDisk (state S.Store conn.old) → IsReadyOf version (state S.Store conn.old) }
    requires later { R.since ≡ Second }
    requires none { HasCleanDisk (state S.Store conn.old) → R.accessor.held books.old ≡ fin.empty }
    ensures gathered { HasCleanDisk (state S.Store conn.new)
        → OnOk result (books.new ≡ R.accessor.with books.old (R.accessor.held (tables (state S.Store conn.old)))) }
    ensures reads { OnlyReads (state S.Store conn.old) (state S.Store conn.new) result }
{
    match version {
        Version::First => Ok(()),
        Version::Second => look_at_all::<R, S>(alloc, conn, books),
    }
}

/// Puts the records that are asked for beside those that the books have, of a kind that came with the second version; tables of the first
/// version have none.
pub fn look_later<L: Look, S: Alter>(
    alloc: Global,
    conn: &mut Connection<S>,
    version: Version,
    question: &L,
    books: &mut Books,
) -> Result<(), StoreFault>
    requires ready { HasCleanDisk (state S.Store conn.old) → IsReadyOf version (state S.Store conn.old) }
    requires later { L.Record.since ≡ Second }
    ensures brought { Brings L.Record.accessor (L.asks question.now) result (state S.Store conn.old) books.old (state S.Store conn.new) books.new }
    ensures reads { OnlyReads (state S.Store conn.old) (state S.Store conn.new) result }
{
    match version {
        Version::First => Ok(()),
        Version::Second => look(alloc, conn, question, books),
    }
}

/// Puts the properties, the leases and the endings into books that have none.
pub fn look_at_lettings<S: Alter>(
    alloc: Global,
    conn: &mut Connection<S>,
    version: Version,
    books: &mut Books,
) -> Result<(), StoreFault>
    requires ready { HasCleanDisk (state S.Store conn.old) → IsReadyOf version (state S.Store conn.old) }
    requires properties { HasCleanDisk (state S.Store conn.old) → books.old.books.properties ≡ fin.empty }
    requires leases { HasCleanDisk (state S.Store conn.old) → books.old.books.leases ≡ fin.empty }
    requires endings { HasCleanDisk (state S.Store conn.old) → books.old.books.endings ≡ fin.empty }
    ensures gathered { HasCleanDisk (state S.Store conn.new) → OnOk result (books.new ≡ with_lettings (tables (state S.Store conn.old)).books books.old) }
    ensures reads { OnlyReads (state S.Store conn.old) (state S.Store conn.new) result }
{
    look_at_all::<Property, S>(alloc, conn, books)?;
    look_at_all::<Lease, S>(alloc, conn, books)?;
    look_at_later::<Ending, S>(alloc, conn, version, books)
}
