//! Rows put into the tables in one transaction.

ghost use Rattle.std.specs.Prelude.{◌≡◌, OnOk};
ghost use Rattle.sqlite.specs.State.{HasCleanDisk};
ghost use Rattle.sqlite.specs.Held.{state};
ghost use Rattle.dh_model.specs.Books.{State};
ghost use Rattle.dh_laws.specs.StateTables.{IsStateInOrder};
ghost use Rattle.dh_schema.specs.Putting.{Puts};
ghost use Rattle.dh_schema.specs.Steps.{Steps};
ghost use Rattle.dh_schema.specs.Store.{IsReady, IsWriting, LeavesItsTables, tables};

use crate::fault::StoreFault;
use sqlite::{Alter, Connection, Error, Transaction};
use std::alloc::Global;

/// Rows that are put into the tables in one transaction.
pub trait Put {
    /// The tables with the rows.
    ghost after: { Self → State → State };

    /// What the rows ask of the tables.
    ghost fits: { Self → State → Type 0 };

    /// What the tables ask of the rows, whatever they have.
    ghost can_put: { Self → Type 0 } = { λ _. Unit {0} };

    /// Puts the rows into their tables, within the transaction.
    fn put<S: Alter>(&self, alloc: Global, tx: &mut Transaction<'_, S>) -> Result<(), Error>
        requires writing { HasCleanDisk (state S.Store tx.old.conn.now) → IsWriting (state S.Store tx.old.conn.now) }
        requires room { HasCleanDisk (state S.Store tx.old.conn.now) → fits self.now (tables (state S.Store tx.old.conn.now)) }
        requires can { can_put self.now }
        ensures same_reference { tx.new.conn.ghost_name ≡ tx.old.conn.ghost_name }
        ensures puts { Puts (after self.now (tables (state S.Store tx.old.conn.now))).books result
            (state S.Store tx.old.conn.now) (state S.Store tx.new.conn.now) };
}

/// Puts exactly these rows into the tables, in one transaction. They fit in, and leave books in order. At a fault the tables are those
/// with them or those before, and while the store is open those before.
pub fn commit<P: Put, S: Alter>(
    alloc: Global,
    conn: &mut Connection<S>,
    rows: &P,
) -> Result<(), StoreFault>
    requires ready { HasCleanDisk (state S.Store conn.old) → IsReady (state S.Store conn.old) }
    requires order { HasCleanDisk (state S.Store conn.old) → IsStateInOrder (P.after rows.now (tables (state S.Store conn.old))) }
    requires room { HasCleanDisk (state S.Store conn.old) → P.fits rows.now (tables (state S.Store conn.old)) }
    requires can { P.can_put rows.now }
    ensures steps { Steps (P.after rows.now) result (state S.Store conn.old) (state S.Store conn.new) }
    ensures left { HasCleanDisk (state S.Store conn.new) → OnOk result (LeavesItsTables (state S.Store conn.new)) }
{
    if !conn.is_autocommit() {
        return Err(StoreFault::unclean(conn));
    }
    let mut tx = conn.transaction();
    rows.put(alloc, &mut tx)?;
    tx.commit()?;
    Ok(())
}
