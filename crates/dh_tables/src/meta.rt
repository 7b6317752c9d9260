//! The one row of meta in its table.

ghost use Rattle.std.specs.Prelude.{◌≡◌, ◌≤◌, pos, [], IfOk, OnOk, OnErr, IsPermutation};
ghost use Rattle.sqlite_value.specs.Value.{owned};
ghost use Rattle.sqlite_value.specs.declared.value.Value.TheVariants.{Int};
ghost use Rattle.sqlite.specs.Values.{bound_value};
ghost use Rattle.sqlite.specs.State.{HasCleanDisk, IsUnchanged, Shows};
ghost use Rattle.sqlite.specs.Held.{state};
ghost use Rattle.dh_days.specs.declared.limits.TheConstants.{FIRST_MONTH, LAST_NEXT_MONTH};
ghost use Rattle.dh_types.specs.declared.version.Version.TheVariants.{First};
ghost use Rattle.dh_tables.specs.Calls.{CommitsNothing, StaysInTransaction, HasOurTables, IsUndone, IsInTransaction, IsWritingSince};
ghost use Rattle.dh_rows.specs.Cells.{version_number};
ghost use Rattle.dh_tables.specs.MetaTable.{AreFound, HasItsRow, SetsMonths, SetsNext, SetsVersion, meta_rows};

use crate::query::rows_shown;
use dh_ddl::text_of;
use dh_rows::{Meta, Record, version_number};
use dh_types::{Month, Version};
use sqlite::types::ValueRef;
use sqlite::{Alter, Connection, Error, Row, Transaction};
use std::alloc::Global;

/// Writes the row into the table, which has none. An error has changed nothing or ended the transaction, where the store
/// is still open.
pub fn insert_meta<S: Alter>(
    alloc: Global,
    tx: &mut Transaction<'_, S>,
    months: &Meta,
) -> Result<(), Error>
    requires writing { HasCleanDisk (state S.Store tx.old.conn.now) → IsWritingSince First (state S.Store tx.old.conn.now) }
    requires empty { HasCleanDisk (state S.Store tx.old.conn.now) → (state S.Store tx.old.conn.now).now.trees 0 ≡ [] }
    ensures same_reference { tx.new.conn.ghost_name ≡ tx.old.conn.ghost_name }
    ensures writing { HasCleanDisk (state S.Store tx.new.conn.now) → OnOk result (IsInTransaction (state S.Store tx.new.conn.now)) }
    ensures written { HasCleanDisk (state S.Store tx.new.conn.now)
        → OnOk result (SetsMonths months.now (state S.Store tx.old.conn.now) (state S.Store tx.new.conn.now)) }
    ensures shown { HasCleanDisk (state S.Store tx.new.conn.now)
        → OnOk result (StaysInTransaction (state S.Store tx.old.conn.now) (state S.Store tx.new.conn.now)) }
    ensures undone { HasCleanDisk (state S.Store tx.new.conn.now)
        → OnErr result (IsUndone (state S.Store tx.old.conn.now) (state S.Store tx.new.conn.now)) }
    ensures crash { CommitsNothing (state S.Store tx.old.conn.now) (state S.Store tx.new.conn.now) }
{
    let values = months.to_row(alloc, &[])?;
    tx.execute(text_of!(insert, meta, ""), &values)?;
    Ok(())
}

// The months of the row, where there is one such row alone.
fn only_months(alloc: Global, rows: &[Row]) -> Result<Option<Meta>, Error>
    ensures { IfOk result (AreFound rows.now) }
{
    match rows {
        [row] => Ok(Meta::from_row(alloc, row)?),
        _ => Ok(None),
    }
}

/// The rows of the table, in some order. It changes nothing.
pub fn meta_rows_shown<S: Alter>(conn: &mut Connection<S>) -> Result<Vec<Row>, Error>
    requires reading { HasCleanDisk (state S.Store conn.old) → HasOurTables (state S.Store conn.old) }
    ensures rows { HasCleanDisk (state S.Store conn.new) → IfOk result (λ rows. IsPermutation (meta_rows (state S.Store conn.old).now.trees) rows.items) }
    ensures same { HasCleanDisk (state S.Store conn.new) → OnOk result (IsUnchanged (state S.Store conn.old) (state S.Store conn.new)) }
    ensures undone { HasCleanDisk (state S.Store conn.new) → OnErr result (IsUndone (state S.Store conn.old) (state S.Store conn.new)) }
    ensures crash { CommitsNothing (state S.Store conn.old) (state S.Store conn.new) }
{
    rows_shown(conn, text_of!(select, meta, ""), &[])
}

/// The months of the file, with its version; None where the table does not have one row, of either version. It changes no table.
pub fn find_meta<S: Alter>(alloc: Global, conn: &mut Connection<S>) -> Result<Option<Meta>, Error>
    requires reading { HasCleanDisk (state S.Store conn.old) → HasOurTables (state S.Store conn.old) }
    ensures found { HasCleanDisk (state S.Store conn.new) → IfOk result (AreFound (meta_rows (state S.Store conn.old).now.trees)) }
    ensures same { HasCleanDisk (state S.Store conn.new) → OnOk result (IsUnchanged (state S.Store conn.old) (state S.Store conn.new)) }
    ensures undone { HasCleanDisk (state S.Store conn.new) → OnErr result (IsUndone (state S.Store conn.old) (state S.Store conn.new)) }
    ensures crash { CommitsNothing (state S.Store conn.old) (state S.Store conn.new) }
{
    let rows = meta_rows_shown(conn)?;
    only_months(alloc, &rows)
}

// The number of the month.
fn number(month: Month) -> ValueRef<'static>
    ensures value { bound_value (owned result) ≡ Int (pos month) }
    ensures range { FIRST_MONTH ≤ month }
{
    ValueRef::Int(i64::from(month.number()))
}

/// Sets the month whose rent is to be run next, in a table that has its row. An error has changed nothing or ended
/// the transaction, where the store is still open.
pub fn set_next_month<S: Alter>(tx: &mut Transaction<'_, S>, next: Month) -> Result<(), Error>
    requires writing { HasCleanDisk (state S.Store tx.old.conn.now) → IsWritingSince First (state S.Store tx.old.conn.now) }
    requires there { HasCleanDisk (state S.Store tx.old.conn.now) → HasItsRow (state S.Store tx.old.conn.now).now.trees }
    requires range { next ≤ LAST_NEXT_MONTH }
    ensures same_reference { tx.new.conn.ghost_name ≡ tx.old.conn.ghost_name }
    ensures set { HasCleanDisk (state S.Store tx.new.conn.now)
        → OnOk result (SetsNext next (state S.Store tx.old.conn.now) (state S.Store tx.new.conn.now)) }
    ensures shown { HasCleanDisk (state S.Store tx.new.conn.now)
        → OnOk result (StaysInTransaction (state S.Store tx.old.conn.now) (state S.Store tx.new.conn.now)) }
    ensures undone { HasCleanDisk (state S.Store tx.new.conn.now)
        → OnErr result (IsUndone (state S.Store tx.old.conn.now) (state S.Store tx.new.conn.now)) }
    ensures crash { CommitsNothing (state S.Store tx.old.conn.now) (state S.Store tx.new.conn.now) }
{
    tx.execute(
        "UPDATE meta SET next_month = ?1 WHERE id = 1",
        &[number(next)],
    )?;
    Ok(())
}

// The number of the version.
fn numbered(version: Version) -> ValueRef<'static>
    ensures { bound_value (owned result) ≡ Int (pos (version_number version)) }
{
    ValueRef::Int(version_number(version))
}

/// Sets the version, in a table that has its row. An error has changed nothing or ended the transaction, where the store
/// is still open.
pub fn set_version<S: Alter>(tx: &mut Transaction<'_, S>, version: Version) -> Result<(), Error>
    requires writing { HasCleanDisk (state S.Store tx.old.conn.now) → IsWritingSince First (state S.Store tx.old.conn.now) }
    requires there { HasCleanDisk (state S.Store tx.old.conn.now) → HasItsRow (state S.Store tx.old.conn.now).now.trees }
    ensures same_reference { tx.new.conn.ghost_name ≡ tx.old.conn.ghost_name }
    ensures set { HasCleanDisk (state S.Store tx.new.conn.now)
        → OnOk result (SetsVersion version (state S.Store tx.old.conn.now) (state S.Store tx.new.conn.now)) }
    ensures shown { HasCleanDisk (state S.Store tx.new.conn.now)
        → OnOk result (StaysInTransaction (state S.Store tx.old.conn.now) (state S.Store tx.new.conn.now)) }
    ensures undone { HasCleanDisk (state S.Store tx.new.conn.now)
        → OnErr result (IsUndone (state S.Store tx.old.conn.now) (state S.Store tx.new.conn.now)) }
    ensures crash { CommitsNothing (state S.Store tx.old.conn.now) (state S.Store tx.new.conn.now) }
{
    tx.execute(
        "UPDATE meta SET version = ?1 WHERE id = 1",
        &[numbered(version)],
    )?;
    Ok(())
}
