//! All rows of a table of a store of which no more is known than that it has our tables.

ghost use Rattle.std.specs.Prelude.{◌≡◌, length, map, IfOk, OnOk, OnErr, IsPermutation};
ghost use Rattle.std.specs.FinMap as fin;
ghost use Rattle.sqlite.specs.State.{HasCleanDisk, IsUnchanged};
ghost use Rattle.sqlite.specs.Held.{state};
ghost use Rattle.dh_tables.specs.Calls.{CommitsNothing, HasFailed, HasTables, IsCorrupt, IsUndone};
ghost use Rattle.dh_tables.specs.Commands.{Named};
ghost use Rattle.dh_tables.specs.Listing.{IsListing, rowid_alone, select_rowids_text, select_rows_text};

use crate::Tabled;
use crate::query::rows_shown;
use dh_books::Books;
use sqlite::{Alter, Connection, Error, Row};

/// A record whose whole table can be read.
pub trait Listed: Tabled {
    /// The columns by their names.
    ghost named: { Named };

    /// The text that selects each row.
    fn select_rows_text() -> &'static str
        ensures { result.now ≡ select_rows_text named };

    /// The text that selects the rowid of each row.
    fn select_rowids_text() -> &'static str
        ensures { result.now ≡ select_rowids_text named };

    /// How many records of this kind the books have.
    fn held_count(books: &Books) -> usize
        ensures { result ≡ length (fin.values (Self.accessor.held books.now)) };

    ghost is_listing: { IsListing Self.since Self.shape.tree Self.shape.columns named };
}

/// The columns of each row of the table, in some order. It changes nothing. Over a clean disk it answers that the database is
/// corrupt only where the disk has failed.
pub(crate) fn rows_listed<R: Listed, S: Alter>(conn: &mut Connection<S>) -> Result<Vec<Row>, Error>
    requires reading { HasCleanDisk (state S.Store conn.old) → HasTables R.since (state S.Store conn.old) }
    ensures rows { HasCleanDisk (state S.Store conn.new)
        → IfOk result (λ rows. IsPermutation (map R.shape.columns ((state S.Store conn.old).now.trees R.shape.tree)) rows.items) }
    ensures same { HasCleanDisk (state S.Store conn.new) → OnOk result (IsUnchanged (state S.Store conn.old) (state S.Store conn.new)) }
    ensures undone { HasCleanDisk (state S.Store conn.new) → OnErr result (IsUndone (state S.Store conn.old) (state S.Store conn.new)) }
    ensures corrupt { HasCleanDisk (state S.Store conn.new) → IsCorrupt result → HasFailed (state S.Store conn.old) (state S.Store conn.new) }
    ensures crash { CommitsNothing (state S.Store conn.old) (state S.Store conn.new) }
{
    rows_shown(conn, R::select_rows_text(), &[])
}

/// The rowid of each row of the table, as a row of its own, in some order. It changes nothing. Over a clean disk it answers that
/// the database is corrupt only where the disk has failed.
pub(crate) fn rowids_listed<R: Listed, S: Alter>(
    conn: &mut Connection<S>,
) -> Result<Vec<Row>, Error>
    requires reading { HasCleanDisk (state S.Store conn.old) → HasTables R.since (state S.Store conn.old) }
    ensures rows { HasCleanDisk (state S.Store conn.new)
        → IfOk result (λ rows. IsPermutation (map rowid_alone ((state S.Store conn.old).now.trees R.shape.tree)) rows.items) }
    ensures same { HasCleanDisk (state S.Store conn.new) → OnOk result (IsUnchanged (state S.Store conn.old) (state S.Store conn.new)) }
    ensures undone { HasCleanDisk (state S.Store conn.new) → OnErr result (IsUndone (state S.Store conn.old) (state S.Store conn.new)) }
    ensures corrupt { HasCleanDisk (state S.Store conn.new) → IsCorrupt result → HasFailed (state S.Store conn.old) (state S.Store conn.new) }
    ensures crash { CommitsNothing (state S.Store conn.old) (state S.Store conn.new) }
{
    rows_shown(conn, R::select_rowids_text(), &[])
}
