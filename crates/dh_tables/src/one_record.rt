//! One record of a table.

ghost use Rattle.std.specs.Prelude.{◌≡◌, IfOk, OnOk, OnErr};
ghost use Rattle.std.specs.FinMap as fin;
ghost use Rattle.sqlite.specs.State.{HasCleanDisk, IsUnchanged};
ghost use Rattle.sqlite.specs.Held.{state};
ghost use Rattle.dh_model.specs.Whole.{rows_where};
ghost use Rattle.dh_sql.specs.Shape.{IsKept, rows_in, rows_of};
ghost use Rattle.dh_tables.specs.Questions.{AreOneAtMost, AsksFor, only_record};
ghost use Rattle.dh_tables.specs.Calls.{CommitsNothing, HasFailed, HasTables, IsCorrupt, IsFound, IsUndone, asked_in};

use crate::{Look, Tabled, rows_asked};
use sqlite::{Alter, Connection, Error, ErrorCode, Row};
use std::alloc::Global;

// The record that the rows are, of which there is at most one.
pub(crate) fn only<R: Tabled>(alloc: Global, rows: &[Row]) -> Result<Option<R>, Error>
    ensures read { IfOk result (λ found. rows_of R.shape {R = R.order} rows.now ≡ only_record R.shape found) }
    ensures corrupt { IsCorrupt result → AreOneAtMost R.shape.is_row rows.now → ⊥ }
{
    match rows {
        [] => Ok(None),
        [row] => match R::from_row(alloc, row)? {
            Some(record) => Ok(Some(record)),
            None => Err(Error::SqliteFailure(ErrorCode::DatabaseCorrupt)),
        },
        _ => Err(Error::SqliteFailure(ErrorCode::DatabaseCorrupt)),
    }
}

/// The record that is asked for, where it is one at most; None where there is none. It changes no table.
/// Where more are asked for, or a row is no record, it answers that the database is corrupt. Of a question for one key, over a clean
/// disk, it answers so only where the disk has failed.
pub fn find<L: Look, S: Alter>(
    alloc: Global,
    conn: &mut Connection<S>,
    question: &L,
) -> Result<Option<L::Record>, Error>
    requires reading { HasCleanDisk (state S.Store conn.old) → HasTables L.Record.since (state S.Store conn.old) }
    requires kept { HasCleanDisk (state S.Store conn.old) → IsKept L.Record.shape L.Record.order (state S.Store conn.old).now.trees }
    ensures only { HasCleanDisk (state S.Store conn.new)
        → IfOk result (λ found. asked_in L.Record.shape L.Record.order (L.asks question.now) (state S.Store conn.old) ≡ only_record L.Record.shape found) }
    ensures found { HasCleanDisk (state S.Store conn.new)
        → IfOk result (IsFound L.Record.shape L.Record.order (L.asks question.now) (state S.Store conn.old)) }
    ensures corrupt { HasCleanDisk (state S.Store conn.new) → (key : L.Record.Key) → AsksFor L.Record.shape (L.asks question.now) key
        → IsCorrupt result → HasFailed (state S.Store conn.old) (state S.Store conn.new) }
    ensures same { HasCleanDisk (state S.Store conn.new) → OnOk result (IsUnchanged (state S.Store conn.old) (state S.Store conn.new)) }
    ensures undone { HasCleanDisk (state S.Store conn.new) → OnErr result (IsUndone (state S.Store conn.old) (state S.Store conn.new)) }
    ensures crash { CommitsNothing (state S.Store conn.old) (state S.Store conn.new) }
{
    let rows = rows_asked(alloc, conn, question)?;
    only::<L::Record>(alloc, &rows)
}
