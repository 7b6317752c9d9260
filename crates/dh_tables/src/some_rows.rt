//! Some rows of a table, put into books.

ghost use Rattle.std.specs.Prelude.{◌≡◌, ◌||◌, Bool, true, IfOk, OnOk, OnErr};
ghost use Rattle.sqlite.specs.State.{HasCleanDisk, IsUnchanged};
ghost use Rattle.sqlite.specs.Held.{state};
ghost use Rattle.dh_model.specs.Whole.{rows_where};
ghost use Rattle.dh_sql.specs.Shape.{IsKept, rows_in};
ghost use Rattle.dh_tables.specs.Calls.{CommitsNothing, HasFetchedMore, HasTables, IsUndone};

use crate::{Look, gather, rows_asked};
use dh_books::Books;
use sqlite::{Alter, Connection, Error};
use std::alloc::Global;

/// Puts the rows that are asked for beside those that the books have; false where a row is no record, which comes only from a
/// store that is not clean. It changes no table.
pub fn fetch_more<L: Look, S: Alter>(
    alloc: Global,
    conn: &mut Connection<S>,
    question: &L,
    books: &mut Books,
) -> Result<bool, Error>
    requires reading { HasCleanDisk (state S.Store conn.old) → HasTables L.Record.since (state S.Store conn.old) }
    requires kept { HasCleanDisk (state S.Store conn.old) → IsKept L.Record.shape L.Record.order (state S.Store conn.old).now.trees }
    ensures fetched { HasCleanDisk (state S.Store conn.new)
        → IfOk result (λ done. done ≡ true
        → HasFetchedMore L.Record.shape L.Record.order L.Record.accessor (L.asks question.now) (state S.Store conn.old) books.old books.new) }
    ensures read { HasCleanDisk (state S.Store conn.new) → IfOk result (λ done. done ≡ true) }
    ensures same { HasCleanDisk (state S.Store conn.new) → OnOk result (IsUnchanged (state S.Store conn.old) (state S.Store conn.new)) }
    ensures undone { HasCleanDisk (state S.Store conn.new) → OnErr result (IsUndone (state S.Store conn.old) (state S.Store conn.new)) }
    ensures crash { CommitsNothing (state S.Store conn.old) (state S.Store conn.new) }
{
    let rows = rows_asked(alloc, conn, question)?;
    Ok(gather::<L::Record>(alloc, &rows, books)?)
}
