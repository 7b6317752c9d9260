//! A whole table into books.

ghost use Rattle.std.specs.Prelude.{◌≡◌, ◌⊎◌, true, false, IfOk, OnOk, OnErr};
ghost use Rattle.std.specs.List.{AllByRecursion};
ghost use Rattle.std.specs.FinMap as fin;
ghost use Rattle.sqlite.specs.State.{HasCleanDisk, IsUnchanged};
ghost use Rattle.sqlite.specs.Held.{state};
ghost use Rattle.dh_sql.specs.Shape.{IsStored};
ghost use Rattle.dh_tables.specs.Calls.{CommitsNothing, HasFailed, HasTables, IsCorrupt, IsUndone};
ghost use Rattle.dh_tables.specs.Listing.{AreNumbered, HasRowids, HasUniqueKeys, HasUniqueRows, IsGathered, IsLoaded};

use crate::all_rows::{rowids_listed, rows_listed};
use crate::rowids::are_numbered;
use crate::{Listed, gather};
use dh_books::Books;
use sqlite::{Alter, Connection, Error, ErrorCode};
use std::alloc::Global;

// Whether rowids are whole numbers, and none is there twice. It changes no table. Over a clean disk it answers that the database
// is corrupt only where the disk has failed.
fn has_rowids<R: Listed, S: Alter>(alloc: Global, conn: &mut Connection<S>) -> Result<bool, Error>
    requires reading { HasCleanDisk (state S.Store conn.old) → HasTables R.since (state S.Store conn.old) }
    ensures rowids { HasCleanDisk (state S.Store conn.new)
        → IfOk result (λ good. good ≡ true → HasRowids ((state S.Store conn.old).now.trees R.shape.tree)) }
    ensures unnumbered { HasCleanDisk (state S.Store conn.new)
        → IfOk result (λ good. good ≡ false → ¬ AreNumbered ((state S.Store conn.old).now.trees R.shape.tree)) }
    ensures same { HasCleanDisk (state S.Store conn.new) → OnOk result (IsUnchanged (state S.Store conn.old) (state S.Store conn.new)) }
    ensures undone { HasCleanDisk (state S.Store conn.new) → OnErr result (IsUndone (state S.Store conn.old) (state S.Store conn.new)) }
    ensures corrupt { HasCleanDisk (state S.Store conn.new) → IsCorrupt result → HasFailed (state S.Store conn.old) (state S.Store conn.new) }
    ensures crash { CommitsNothing (state S.Store conn.old) (state S.Store conn.new) }
{
    let rows = rowids_listed::<R, S>(conn)?;
    Ok(are_numbered(alloc, &rows)?)
}

/// Puts the records of the table into books that have none; false where a row is no record. It changes no table.
/// Over a clean disk it answers that the database is corrupt only where the disk has failed or a key is there twice.
pub fn gather_all<R: Listed, S: Alter>(
    alloc: Global,
    conn: &mut Connection<S>,
    books: &mut Books,
) -> Result<bool, Error>
    requires reading { HasCleanDisk (state S.Store conn.old) → HasTables R.since (state S.Store conn.old) }
    requires none { HasCleanDisk (state S.Store conn.old) → R.accessor.held books.old ≡ fin.empty }
    ensures gathered { HasCleanDisk (state S.Store conn.new)
        → IfOk result (λ done. done ≡ true → IsGathered R.shape R.order R.accessor (state S.Store conn.old).now.trees books.old books.new) }
    ensures damaged { HasCleanDisk (state S.Store conn.new)
        → IfOk result (λ done. done ≡ false → ¬ AllByRecursion (IsStored R.shape) ((state S.Store conn.old).now.trees R.shape.tree)) }
    ensures same { HasCleanDisk (state S.Store conn.new) → OnOk result (IsUnchanged (state S.Store conn.old) (state S.Store conn.new)) }
    ensures undone { HasCleanDisk (state S.Store conn.new) → OnErr result (IsUndone (state S.Store conn.old) (state S.Store conn.new)) }
    ensures corrupt { HasCleanDisk (state S.Store conn.new) → IsCorrupt result
        → HasFailed (state S.Store conn.old) (state S.Store conn.new) ⊎ ¬ HasUniqueKeys R.shape R.order (state S.Store conn.old).now.trees }
    ensures crash { CommitsNothing (state S.Store conn.old) (state S.Store conn.new) }
{
    let rows = rows_listed::<R, S>(conn)?;
    if !gather::<R>(alloc, &rows, books)? {
        return Ok(false);
    }
    if R::held_count(books) != rows.len() {
        return Err(Error::SqliteFailure(ErrorCode::DatabaseCorrupt));
    }
    Ok(true)
}

/// Puts the records of the table into books that have none of it; false exactly where a row is no record. It changes no table.
/// Over a clean disk it answers that the database is corrupt only where the disk has failed, or a rowid or a key is there twice,
/// or a rowid is no whole number.
pub fn load_all<R: Listed, S: Alter>(
    alloc: Global,
    conn: &mut Connection<S>,
    books: &mut Books,
) -> Result<bool, Error>
    requires reading { HasCleanDisk (state S.Store conn.old) → HasTables R.since (state S.Store conn.old) }
    requires none { HasCleanDisk (state S.Store conn.old) → R.accessor.held books.old ≡ fin.empty }
    ensures loaded { HasCleanDisk (state S.Store conn.new)
        → IfOk result (λ done. done ≡ true → IsLoaded R.shape R.order R.accessor (state S.Store conn.old).now.trees books.old books.new) }
    ensures damaged { HasCleanDisk (state S.Store conn.new)
        → IfOk result (λ done. done ≡ false → ¬ AllByRecursion (IsStored R.shape) ((state S.Store conn.old).now.trees R.shape.tree)) }
    ensures same { HasCleanDisk (state S.Store conn.new) → OnOk result (IsUnchanged (state S.Store conn.old) (state S.Store conn.new)) }
    ensures undone { HasCleanDisk (state S.Store conn.new) → OnErr result (IsUndone (state S.Store conn.old) (state S.Store conn.new)) }
    ensures corrupt { HasCleanDisk (state S.Store conn.new) → IsCorrupt result
        → HasFailed (state S.Store conn.old) (state S.Store conn.new) ⊎ ¬ HasUniqueRows R.shape R.order (state S.Store conn.old).now.trees }
    ensures crash { CommitsNothing (state S.Store conn.old) (state S.Store conn.new) }
{
    if !has_rowids::<R, S>(alloc, conn)? {
        return Err(Error::SqliteFailure(ErrorCode::DatabaseCorrupt));
    }
    gather_all::<R, S>(alloc, conn, books)
}
