//! Adding several rows by one statement, which takes less time than a statement for each.

ghost use Rattle.std.specs.Prelude.{◌≡◌, List, ℕ, All, true, length, map, flat_map, IfOk, OnOk, OnErr};
ghost use Rattle.sqlite.specs.State.{HasCleanDisk};
ghost use Rattle.sqlite.specs.Held.{state};
ghost use Rattle.sqlite.specs.Values.{bound};
ghost use Rattle.sqlite_schema.specs.declared.schema.Schema.{Schema};
ghost use Rattle.dh_ddl.specs.Versions.{HasSince};
ghost use Rattle.dh_sql.specs.Changes.{AreNew};
ghost use Rattle.dh_sql.specs.Shape.{IsKept, rows_in};
ghost use Rattle.dh_tables.specs.declared.bulk.TheConstants.{BULK};
ghost use Rattle.dh_tables.specs.Commands.{insert_rows_text};
ghost use Rattle.dh_tables.specs.Tables.{IsInsertOfEach};
ghost use Rattle.dh_tables.specs.Calls.{AddsEach, CommitsNothing, StaysInTransaction, IsUndone, IsInTransaction, IsWritingSince};

use crate::{Listed, Tabled};
use sqlite::types::ValueRef;
use sqlite::{Alter, Error, Transaction};
use std::alloc::{AllocError, Global};

/// How many rows a bulk insert adds.
pub const BULK: usize = 10;

/// A record of which one statement adds [`BULK`].
pub trait InBulk: Listed {
    /// The text that adds them.
    fn bulk_text() -> &'static str
        ensures { result.now ≡ insert_rows_text BULK Self.Listed.named.table Self.Listed.named.names };

    ghost adds_bulk: { (s : Schema) → HasSince Self.Tabled.since s → IsInsertOfEach BULK Self.Record.row Self.Tabled.adding Self.Listed.named s };
}

// The text of each record's day.
fn day_texts<R: Tabled>(alloc: Global, rows: &[R]) -> Result<Vec<Vec<u8>>, AllocError>
    ensures { IfOk result (λ days. map (λ day. day.items) days.items ≡ map R.Record.day_column rows.now) }
{
    let mut days = Vec::new(alloc);
    for row in rows {
        days.push(row.day_bytes(alloc)?)?;
    }
    Ok(days)
}

// The columns of the records one behind the other, given the texts of their days.
fn columns_of<'a, R: Tabled>(
    alloc: Global,
    rows: &'a [R],
    days: &'a [Vec<u8>],
) -> Result<Vec<ValueRef<'a>>, AllocError>
    requires { map (λ day. day.items) days.now ≡ map R.Record.day_column rows.now }
    ensures columns { IfOk result (λ values. bound values.items ≡ flat_map R.Record.row rows.now) }
    ensures grammar { IfOk result (λ _. All R.Record.can_keep rows.now → All (λ row. R.Record.is_row (R.Record.row row) ≡ true) rows.now) }
{
    let mut values = Vec::new(alloc);
    for at in 0..rows.len() {
        let mut columns = rows[at].to_row(alloc, &days[at])?;
        values.append(&mut columns)?;
    }
    Ok(values)
}

/// Adds the records, whose keys are new and differ, by one statement. An error has changed nothing or ended the transaction,
/// where the store is still open.
pub fn insert_bulk<R: InBulk, S: Alter>(
    alloc: Global,
    tx: &mut Transaction<'_, S>,
    rows: &[R],
) -> Result<(), Error>
    requires count { length rows.now ≡ BULK }
    requires writing { HasCleanDisk (state S.Store tx.old.conn.now) → IsWritingSince R.since (state S.Store tx.old.conn.now) }
    requires kept { HasCleanDisk (state S.Store tx.old.conn.now) → IsKept R.shape R.order (state S.Store tx.old.conn.now).now.trees }
    requires fresh { HasCleanDisk (state S.Store tx.old.conn.now)
        → AreNew R.shape.key rows.now (rows_in R.shape {R = R.order} (state S.Store tx.old.conn.now).now.trees) }
    requires keeps { All R.Record.can_keep rows.now }
    ensures same_reference { tx.new.conn.ghost_name ≡ tx.old.conn.ghost_name }
    ensures writing { HasCleanDisk (state S.Store tx.new.conn.now) → OnOk result (IsInTransaction (state S.Store tx.new.conn.now)) }
    ensures added { HasCleanDisk (state S.Store tx.new.conn.now)
        → OnOk result (AddsEach R.shape R.order rows.now (state S.Store tx.old.conn.now) (state S.Store tx.new.conn.now)) }
    ensures shown { HasCleanDisk (state S.Store tx.new.conn.now)
        → OnOk result (StaysInTransaction (state S.Store tx.old.conn.now) (state S.Store tx.new.conn.now)) }
    ensures undone { HasCleanDisk (state S.Store tx.new.conn.now)
        → OnErr result (IsUndone (state S.Store tx.old.conn.now) (state S.Store tx.new.conn.now)) }
    ensures crash { CommitsNothing (state S.Store tx.old.conn.now) (state S.Store tx.new.conn.now) }
{
    let days = day_texts(alloc, rows)?;
    let values = columns_of(alloc, rows, &days)?;
    tx.execute(R::bulk_text(), &values)?;
    Ok(())
}
