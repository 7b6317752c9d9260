//! What all tables of records have in common, and adding a row.

ghost use Rattle.std.specs.Prelude.{◌≡◌, ℕ, true, List, None, OnOk, OnErr};
ghost use Rattle.std.specs.declared.cmp.Ordering.{Ordering};
ghost use Rattle.std.specs.FinMap as fin;
ghost use Rattle.sqlite.specs.State.{HasCleanDisk, Shows};
ghost use Rattle.sqlite.specs.Held.{state};
ghost use Rattle.dh_types.specs.declared.version.Version.{Version};
ghost use Rattle.dh_sql.specs.Shape.{Shape, IsKept, rows_in};
ghost use Rattle.dh_sql.specs.Changes.{Becomes};
ghost use Rattle.dh_tables.specs.Kinds.{IsKind};
ghost use Rattle.dh_tables.specs.Tables.{Accessor, Adding, HasShape, IsAdding};
ghost use Rattle.dh_tables.specs.Calls.{Adds, CommitsNothing, StaysInTransaction, IsNew, IsUndone, IsInTransaction, IsWritingSince};

use dh_books::Books;
use dh_rows::Record;
use dh_types::Version;
use sqlite::{Alter, Error, Transaction};
use std::alloc::{AllocError, Global};

/// A record that has a table of its own.
pub trait Tabled: Record {
    /// How records stand in their tree, and the order of their keys.
    ghost shape: { Shape Self.Key Self };

    ghost order: { Self.Key → Self.Key → Ordering };

    /// The version that the table came with.
    ghost since: { Version };

    /// The version that the table came with.
    fn came_with() -> Version
        ensures { result ≡ since };

    /// The text that adds a row.
    ghost adding: { Adding Self };

    /// Where the books have records of this kind.
    ghost accessor: { Accessor Self.Key Self order };

    /// The kind of record that it is.
    ghost is_kind: { IsKind (record { Key = Self.Key; Row = Self; order = order; since = since; shape = shape; accessor = accessor }) };

    /// The text that adds a row.
    fn insert_text() -> &'static str
        ensures { result.now ≡ adding.text };

    /// Puts the record under its key.
    fn put(self, books: &mut Books) -> Result<(), AllocError>
        ensures { OnOk result (books.new ≡ accessor.with books.old (fin.insert (accessor.held books.old) (shape.key self) self)) };

    ghost has_shape: { HasShape shape Self.Record.is_row Self.Record.decode Self.Record.key_of };

    ghost is_adding: { IsAdding since shape Self.Record.row Self.Record.is_row adding };
}

/// Adds the record, whose key is new. An error has changed nothing or ended the transaction,
/// where the store is still open.
pub fn insert<R: Tabled, S: Alter>(
    alloc: Global,
    tx: &mut Transaction<'_, S>,
    row: &R,
) -> Result<(), Error>
    requires writing { HasCleanDisk (state S.Store tx.old.conn.now) → IsWritingSince R.since (state S.Store tx.old.conn.now) }
    requires kept { HasCleanDisk (state S.Store tx.old.conn.now) → IsKept R.shape R.order (state S.Store tx.old.conn.now).now.trees }
    requires fresh { HasCleanDisk (state S.Store tx.old.conn.now) → IsNew R.shape R.order row.now (state S.Store tx.old.conn.now) }
    requires keeps { R.Record.can_keep row.now }
    ensures same_reference { tx.new.conn.ghost_name ≡ tx.old.conn.ghost_name }
    ensures writing { HasCleanDisk (state S.Store tx.new.conn.now) → OnOk result (IsInTransaction (state S.Store tx.new.conn.now)) }
    ensures added { HasCleanDisk (state S.Store tx.new.conn.now)
        → OnOk result (Adds R.shape R.order row.now (state S.Store tx.old.conn.now) (state S.Store tx.new.conn.now)) }
    ensures shown { HasCleanDisk (state S.Store tx.new.conn.now)
        → OnOk result (StaysInTransaction (state S.Store tx.old.conn.now) (state S.Store tx.new.conn.now)) }
    ensures undone { HasCleanDisk (state S.Store tx.new.conn.now)
        → OnErr result (IsUndone (state S.Store tx.old.conn.now) (state S.Store tx.new.conn.now)) }
    ensures crash { CommitsNothing (state S.Store tx.old.conn.now) (state S.Store tx.new.conn.now) }
{
    let day = row.day_bytes(alloc)?;
    let values = row.to_row(alloc, &day)?;
    tx.execute(R::insert_text(), &values)?;
    Ok(())
}
