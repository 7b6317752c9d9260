//! One change in one transaction.

ghost use Rattle.std.specs.Prelude.{◌≡◌, ◌≤◌, ◌+◌, None, OnOk};
ghost use Rattle.std.specs.FinMap.{get};
ghost use Rattle.sqlite.specs.State.{HasCleanDisk};
ghost use Rattle.sqlite.specs.Held.{state};
ghost use Rattle.dh_days.specs.declared.limits.TheConstants.{LAST_NEXT_MONTH};
ghost use Rattle.dh_model.specs.declared.rows.Change.TheVariants as change;
ghost use Rattle.dh_model.specs.Edits.{Insert, edit_of};
ghost use Rattle.dh_laws.specs.Looks.{FitsIn};
ghost use Rattle.dh_laws.specs.StateTables.{IsStateInOrder};
ghost use Rattle.dh_schema.specs.Steps.{Steps};
ghost use Rattle.dh_schema.specs.Store.{IsReady, IsWriting, LeavesItsTables, tables, with_change};
ghost use Rattle.dh_schema.specs.Changes.{HasPlace, PutsRows, TurnsInto};

use crate::{Put, StoreFault, commit};
use dh_model::Change;
use dh_tables::{Amend, Tabled, insert, set_next_month, update};
use dh_types::{Month, Run};
use sqlite::{Alter, Connection, Error, Transaction};
use std::alloc::Global;

// The month after that of the run.
fn month_after(run: &Run) -> Month
    ensures value { result ≡ run.now.month + 1 }
    ensures range { result ≤ LAST_NEXT_MONTH }
{
    run.month.month().next().unwrap()
}

// Puts the row of a month's run, and moves the next month on.
fn put_run<S: Alter>(alloc: Global, tx: &mut Transaction<'_, S>, run: &Run) -> Result<(), Error>
    requires writing { HasCleanDisk (state S.Store tx.old.conn.now) → IsWriting (state S.Store tx.old.conn.now) }
    requires fresh { HasCleanDisk (state S.Store tx.old.conn.now) → get (tables (state S.Store tx.old.conn.now)).books.runs run.now.month ≡ None }
    ensures same_reference { tx.new.conn.ghost_name ≡ tx.old.conn.ghost_name }
    ensures puts { PutsRows (change.Open run.now) result (state S.Store tx.old.conn.now) (state S.Store tx.new.conn.now) }
{
    insert(alloc, tx, run)?;
    set_next_month(tx, month_after(run))
}

// Adds the only row of the change.
fn add<R: Tabled, S: Alter>(
    alloc: Global,
    tx: &mut Transaction<'_, S>,
    row: &R,
    change: &Change,
) -> Result<(), Error>
    requires writing { HasCleanDisk (state S.Store tx.old.conn.now) → IsWriting (state S.Store tx.old.conn.now) }
    requires fits { HasCleanDisk (state S.Store tx.old.conn.now) → FitsIn change.now (tables (state S.Store tx.old.conn.now)).books }
    requires place { HasCleanDisk (state S.Store tx.old.conn.now) → HasPlace (tables (state S.Store tx.old.conn.now)).books.version change.now }
    requires is { edit_of change.now ≡ Insert R.is_kind.kind (R.is_kind.as_row row.now) }
    requires keeps { R.Record.can_keep row.now }
    ensures same_reference { tx.new.conn.ghost_name ≡ tx.old.conn.ghost_name }
    ensures puts { PutsRows change.now result (state S.Store tx.old.conn.now) (state S.Store tx.new.conn.now) }
{
    insert(alloc, tx, row)
}

// Makes the row of the change another.
fn amend<A: Amend, S: Alter>(
    alloc: Global,
    tx: &mut Transaction<'_, S>,
    amendment: &A,
    change: &Change,
) -> Result<(), Error>
    requires writing { HasCleanDisk (state S.Store tx.old.conn.now) → IsWriting (state S.Store tx.old.conn.now) }
    requires fits { HasCleanDisk (state S.Store tx.old.conn.now) → FitsIn change.now (tables (state S.Store tx.old.conn.now)).books }
    requires place { HasCleanDisk (state S.Store tx.old.conn.now) → HasPlace (tables (state S.Store tx.old.conn.now)).books.version change.now }
    requires is { TurnsInto A.Record.is_kind change.now (A.key amendment.now) (A.amended amendment.now) }
    ensures same_reference { tx.new.conn.ghost_name ≡ tx.old.conn.ghost_name }
    ensures puts { PutsRows change.now result (state S.Store tx.old.conn.now) (state S.Store tx.new.conn.now) }
{
    update(alloc, tx, amendment)
}

// Puts the rows of the change into their tables.
fn put_rows<S: Alter>(
    alloc: Global,
    tx: &mut Transaction<'_, S>,
    change: &Change,
) -> Result<(), Error>
    requires writing { HasCleanDisk (state S.Store tx.old.conn.now) → IsWriting (state S.Store tx.old.conn.now) }
    requires fits { HasCleanDisk (state S.Store tx.old.conn.now) → FitsIn change.now (tables (state S.Store tx.old.conn.now)).books }
    requires place { HasCleanDisk (state S.Store tx.old.conn.now) → HasPlace (tables (state S.Store tx.old.conn.now)).books.version change.now }
    ensures same_reference { tx.new.conn.ghost_name ≡ tx.old.conn.ghost_name }
    ensures puts { PutsRows change.now result (state S.Store tx.old.conn.now) (state S.Store tx.new.conn.now) }
{
    match change {
        Change::Branch(it) => add(alloc, tx, it, change),
        Change::NewFee(it) => add(alloc, tx, it, change),
        Change::Fee(it) => amend(alloc, tx, it, change),
        Change::Staff(it) => add(alloc, tx, it, change),
        Change::Owner(it) => add(alloc, tx, it, change),
        Change::Property(it) => add(alloc, tx, it, change),
        Change::Assign(it) => amend(alloc, tx, it, change),
        Change::Rent(it) => amend(alloc, tx, it, change),
        Change::Client(it) => add(alloc, tx, it, change),
        Change::Register(it) => add(alloc, tx, it, change),
        Change::Viewing(it) => add(alloc, tx, it, change),
        Change::Comment(it) => amend(alloc, tx, it, change),
        Change::Inspection(it) => add(alloc, tx, it, change),
        Change::Lease(it) => add(alloc, tx, it, change),
        Change::NewEnding(it) => add(alloc, tx, it, change),
        Change::Ending(it) => amend(alloc, tx, it, change),
        Change::Receipt(it) => add(alloc, tx, it, change),
        Change::Open(it) => put_run(alloc, tx, it),
        Change::Post => Ok(()),
    }
}

// The rows of a change.
#[derive(Clone, Copy)]
struct ChangeRows<'a> {
    change: &'a Change,
}

impl Put for ChangeRows<'_> {
    ghost after = { λ rows. with_change rows.change.now };

    ghost fits = { λ rows t. FitsIn rows.change.now t.books × HasPlace t.books.version rows.change.now };

    fn put<S: Alter>(&self, alloc: Global, tx: &mut Transaction<'_, S>) -> Result<(), Error> {
        put_rows(alloc, tx, self.change)
    }
}

/// Puts exactly the rows of the change into the tables, in one transaction: those of an accepted command, which fit in, have
/// a table in the version of the file, and leave books in order. At a fault the tables are these or those before, and while
/// the store is open those before.
pub fn apply<S: Alter>(
    alloc: Global,
    conn: &mut Connection<S>,
    change: &Change,
) -> Result<(), StoreFault>
    requires ready { HasCleanDisk (state S.Store conn.old) → IsReady (state S.Store conn.old) }
    requires order { HasCleanDisk (state S.Store conn.old) → IsStateInOrder (with_change change.now (tables (state S.Store conn.old))) }
    requires fits { HasCleanDisk (state S.Store conn.old) → FitsIn change.now (tables (state S.Store conn.old)).books }
    requires place { HasCleanDisk (state S.Store conn.old) → HasPlace (tables (state S.Store conn.old)).books.version change.now }
    ensures steps { Steps (with_change change.now) result (state S.Store conn.old) (state S.Store conn.new) }
    ensures left { HasCleanDisk (state S.Store conn.new) → OnOk result (LeavesItsTables (state S.Store conn.new)) }
{
    commit(alloc, conn, &ChangeRows { change })
}
