//! Changing one record of a table.

ghost use Rattle.std.specs.Prelude.{◌≡◌, true, IfOk, OnOk, OnErr, Some};
ghost use Rattle.std.specs.FinMap as fin;
ghost use Rattle.sqlite.specs.Values.{bound};
ghost use Rattle.sqlite.specs.State.{HasCleanDisk, Shows};
ghost use Rattle.sqlite.specs.Held.{state};
ghost use Rattle.dh_sql.specs.Shape.{AreApart, IsKept, rows_in};
ghost use Rattle.dh_sql.specs.Changes.{Becomes};
ghost use Rattle.dh_tables.specs.Amendments.{Amending, IsAmending};
ghost use Rattle.dh_tables.specs.Calls.{Amends, CommitsNothing, StaysInTransaction, IsThere, IsUndone, IsWritingSince};

use crate::Tabled;
use sqlite::types::ValueRef;
use sqlite::{Alter, Error, Transaction};
use std::alloc::{AllocError, Global};

/// A change of the record that has a key, told by a fixed text.
pub trait Amend {
    /// The record that is changed.
    type Record: Tabled;

    /// The key of the record, and the record that it becomes.
    ghost key: { Self → Self.Record.Key };

    ghost amended: { Self → Self.Record → Self.Record };

    /// The text, and its parameters.
    ghost amending: { Amending Self };

    /// What the type of the change tells of its values.
    ghost can_amend: { Self → Type 0 } = { λ _. Unit {0} };

    /// The text.
    fn text() -> &'static str
        ensures { result.now ≡ amending.text };

    /// The parameters.
    fn params(&self, alloc: Global) -> Result<Vec<ValueRef<'_>>, AllocError>
        ensures values { IfOk result (λ values. bound values.items ≡ amending.given self.now) }
        ensures known { IfOk result (λ _. can_amend self.now) };

    ghost is_amending: { IsAmending Self.Record.since Self.Record.shape amending can_amend key amended };
}

/// Changes the record that has the key, which is there. An error has changed nothing or ended the
/// transaction, where the store is still open.
pub fn update<A: Amend, S: Alter>(
    alloc: Global,
    tx: &mut Transaction<'_, S>,
    change: &A,
) -> Result<(), Error>
    requires writing { HasCleanDisk (state S.Store tx.old.conn.now) → IsWritingSince A.Record.since (state S.Store tx.old.conn.now) }
    requires kept { HasCleanDisk (state S.Store tx.old.conn.now) → IsKept A.Record.shape A.Record.order (state S.Store tx.old.conn.now).now.trees }
    requires apart { HasCleanDisk (state S.Store tx.old.conn.now) → AreApart ((state S.Store tx.old.conn.now).now.trees A.Record.shape.tree) }
    requires there { HasCleanDisk (state S.Store tx.old.conn.now)
        → IsThere A.Record.shape A.Record.order (A.key change.now) (state S.Store tx.old.conn.now) }
    ensures same_reference { tx.new.conn.ghost_name ≡ tx.old.conn.ghost_name }
    ensures amended { HasCleanDisk (state S.Store tx.new.conn.now)
        → OnOk result (Amends A.Record.shape A.Record.order (A.key change.now) (A.amended change.now)
        (state S.Store tx.old.conn.now) (state S.Store tx.new.conn.now)) }
    ensures shown { HasCleanDisk (state S.Store tx.new.conn.now)
        → OnOk result (StaysInTransaction (state S.Store tx.old.conn.now) (state S.Store tx.new.conn.now)) }
    ensures undone { HasCleanDisk (state S.Store tx.new.conn.now)
        → OnErr result (IsUndone (state S.Store tx.old.conn.now) (state S.Store tx.new.conn.now)) }
    ensures crash { CommitsNothing (state S.Store tx.old.conn.now) (state S.Store tx.new.conn.now) }
{
    let params = change.params(alloc)?;
    tx.execute(A::text(), &params)?;
    Ok(())
}
