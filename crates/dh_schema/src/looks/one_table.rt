//! A look at rows of one table.

ghost use Rattle.std.specs.Prelude.{◌≡◌, OnOk};
ghost use Rattle.std.specs.FinMap as fin;
ghost use Rattle.sqlite.specs.State.{HasCleanDisk};
ghost use Rattle.sqlite.specs.Held.{state};
ghost use Rattle.dh_sql.specs.Shape.{rows_in};
ghost use Rattle.dh_model.specs.Kinds.{IsSince};
ghost use Rattle.dh_tables.specs.Calls.{HasFetchedMore};
ghost use Rattle.dh_schema.specs.Store.{IsReady};
ghost use Rattle.dh_schema.specs.Tables.{version_of_tables};
ghost use Rattle.dh_schema.specs.Looked.{Brings};
ghost use Rattle.dh_schema.specs.Reading.{OnlyReads};

use crate::StoreFault;
use dh_books::Books;
use dh_tables::{Listed, Look, fetch_more, gather_all};
use sqlite::{Alter, Connection};
use std::alloc::Global;

/// Puts the rows that are asked for beside those that the books have. Rows that are no record come only from a store that
/// is not clean.
pub fn look<L: Look, S: Alter>(
    alloc: Global,
    conn: &mut Connection<S>,
    question: &L,
    books: &mut Books,
) -> Result<(), StoreFault>
    requires ready { HasCleanDisk (state S.Store conn.old) → IsReady (state S.Store conn.old) }
    requires since { HasCleanDisk (state S.Store conn.old) → IsSince L.Record.since (version_of_tables (state S.Store conn.old).now.trees) }
    ensures brought { Brings L.Record.accessor (L.asks question.now) result (state S.Store conn.old) books.old (state S.Store conn.new) books.new }
    ensures put { HasCleanDisk (state S.Store conn.new)
        → OnOk result (HasFetchedMore L.Record.shape L.Record.order L.Record.accessor (L.asks question.now) (state S.Store conn.old) books.old books.new) }
    ensures reads { OnlyReads (state S.Store conn.old) (state S.Store conn.new) result }
{
    match fetch_more(alloc, conn, question, books) {
        Ok(true) => Ok(()),
        Ok(false) => Err(StoreFault::unclean(conn)),
        Err(error) => Err(error.into()),
    }
}

/// Puts a whole table into books that have none of it. Rows that are no record come only from a store that is not clean.
pub fn look_at_all<R: Listed, S: Alter>(
    alloc: Global,
    conn: &mut Connection<S>,
    books: &mut Books,
) -> Result<(), StoreFault>
    requires ready { HasCleanDisk (state S.Store conn.old) → IsReady (state S.Store conn.old) }
    requires since { HasCleanDisk (state S.Store conn.old) → IsSince R.since (version_of_tables (state S.Store conn.old).now.trees) }
    requires none { HasCleanDisk (state S.Store conn.old) → R.accessor.held books.old ≡ fin.empty }
    ensures gathered { HasCleanDisk (state S.Store conn.new)
        → OnOk result (books.new ≡ R.accessor.with books.old (rows_in R.shape (state S.Store conn.old).now.trees)) }
    ensures reads { OnlyReads (state S.Store conn.old) (state S.Store conn.new) result }
{
    match gather_all::<R, S>(alloc, conn, books) {
        Ok(true) => Ok(()),
        Ok(false) => Err(StoreFault::unclean(conn)),
        Err(error) => Err(error.into()),
    }
}
