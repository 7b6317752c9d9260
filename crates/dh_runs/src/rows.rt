//! The rows of a batch put into their tables, within a transaction.

ghost use Rattle.std.specs.Prelude.{◌≡◌, ◌≤◌, [], ◌∷◌, All, None, IfSome, is_some, length};
ghost use Rattle.std.specs.FinMap.{get};
ghost use Rattle.sqlite.specs.State.{HasCleanDisk};
ghost use Rattle.sqlite.specs.Held.{state};
ghost use Rattle.dh_days.specs.Days.{month_of_day};
ghost use Rattle.dh_days.specs.declared.limits.TheConstants.{LAST_ENTRY_MONTH};
ghost use Rattle.dh_model.specs.Runs.{charge_key, part_key};
ghost use Rattle.dh_leases.specs.Plans as plans;
ghost use Rattle.dh_leases.specs.Plans.{FallsInTime, HasItsFeeRow, HasItsPart, some_row, with_batch_rows};
ghost use Rattle.dh_sql.specs.Changes.{AreNew};
ghost use Rattle.dh_tables.specs.declared.bulk.TheConstants.{BULK};
ghost use Rattle.dh_schema.specs.Store.{IsWriting, tables};
ghost use Rattle.dh_schema.specs.Putting.{TurnsBooks};
ghost use Rattle.dh_runs.specs.Putting.{with_charge, with_charges, with_fees, with_part};

use dh_leases::BatchRows;
use dh_schema::Put;
use dh_tables::{BULK, insert, insert_bulk, update};
use dh_types::{Charge, Part, PartFee};
use sqlite::{Alter, Error, Transaction};
use std::alloc::Global;

// Puts a charge that is new.
fn put_charge<S: Alter>(
    alloc: Global,
    tx: &mut Transaction<'_, S>,
    charge: &Charge,
) -> Result<(), Error>
    requires writing { HasCleanDisk (state S.Store tx.old.conn.now) → IsWriting (state S.Store tx.old.conn.now) }
    requires fresh { HasCleanDisk (state S.Store tx.old.conn.now)
        → get (tables (state S.Store tx.old.conn.now)).books.charges (charge_key charge.now) ≡ None }
    requires in_time { month_of_day charge.now.day ≤ LAST_ENTRY_MONTH }
    ensures same_reference { tx.new.conn.ghost_name ≡ tx.old.conn.ghost_name }
    ensures puts { TurnsBooks (with_charge charge.now) result (state S.Store tx.old.conn.now) (state S.Store tx.new.conn.now) }
{
    insert(alloc, tx, charge)
}

// Puts charges that are new, one after the other.
fn put_each_charge<S: Alter>(
    alloc: Global,
    tx: &mut Transaction<'_, S>,
    charges: &[Charge],
) -> Result<(), Error>
    requires writing { HasCleanDisk (state S.Store tx.old.conn.now) → IsWriting (state S.Store tx.old.conn.now) }
    requires new { HasCleanDisk (state S.Store tx.old.conn.now)
        → AreNew charge_key charges.now (tables (state S.Store tx.old.conn.now)).books.charges }
    requires in_time { All (λ charge. month_of_day charge.day ≤ LAST_ENTRY_MONTH) charges.now }
    ensures same_reference { tx.new.conn.ghost_name ≡ tx.old.conn.ghost_name }
    ensures puts { TurnsBooks (with_charges charges.now) result (state S.Store tx.old.conn.now) (state S.Store tx.new.conn.now) }
{
    for charge in charges {
        put_charge(alloc, tx, charge)?;
    }
    Ok(())
}

// Puts as many charges that are new as a bulk insert adds.
fn put_bulk<S: Alter>(
    alloc: Global,
    tx: &mut Transaction<'_, S>,
    charges: &[Charge],
) -> Result<(), Error>
    requires count { length charges.now ≡ BULK }
    requires writing { HasCleanDisk (state S.Store tx.old.conn.now) → IsWriting (state S.Store tx.old.conn.now) }
    requires new { HasCleanDisk (state S.Store tx.old.conn.now)
        → AreNew charge_key charges.now (tables (state S.Store tx.old.conn.now)).books.charges }
    requires in_time { All (λ charge. month_of_day charge.day ≤ LAST_ENTRY_MONTH) charges.now }
    ensures same_reference { tx.new.conn.ghost_name ≡ tx.old.conn.ghost_name }
    ensures puts { TurnsBooks (with_charges charges.now) result (state S.Store tx.old.conn.now) (state S.Store tx.new.conn.now) }
{
    insert_bulk(alloc, tx, charges)
}

// Puts charges that are new: by bulk inserts, as far as they go, and the rest one after the other.
fn put_charges<S: Alter>(
    alloc: Global,
    tx: &mut Transaction<'_, S>,
    charges: &[Charge],
) -> Result<(), Error>
    requires writing { HasCleanDisk (state S.Store tx.old.conn.now) → IsWriting (state S.Store tx.old.conn.now) }
    requires new { HasCleanDisk (state S.Store tx.old.conn.now)
        → AreNew charge_key charges.now (tables (state S.Store tx.old.conn.now)).books.charges }
    requires in_time { All (λ charge. month_of_day charge.day ≤ LAST_ENTRY_MONTH) charges.now }
    ensures same_reference { tx.new.conn.ghost_name ≡ tx.old.conn.ghost_name }
    ensures puts { TurnsBooks (with_charges charges.now) result (state S.Store tx.old.conn.now) (state S.Store tx.new.conn.now) }
{
    let mut left = charges;
    while left.len() >= BULK {
        let (bulk, rest) = left.split_at(BULK);
        put_bulk(alloc, tx, bulk)?;
        left = rest;
    }
    put_each_charge(alloc, tx, left)
}

// Puts the part row, in the place of the one that the branch has, if it has one.
fn put_part<S: Alter>(
    alloc: Global,
    tx: &mut Transaction<'_, S>,
    part: &Part,
    has_part: bool,
) -> Result<(), Error>
    requires writing { HasCleanDisk (state S.Store tx.old.conn.now) → IsWriting (state S.Store tx.old.conn.now) }
    requires known { HasCleanDisk (state S.Store tx.old.conn.now)
        → has_part ≡ is_some (get (tables (state S.Store tx.old.conn.now)).books.parts (part_key part.now)) }
    ensures same_reference { tx.new.conn.ghost_name ≡ tx.old.conn.ghost_name }
    ensures puts { TurnsBooks (with_part part.now) result (state S.Store tx.old.conn.now) (state S.Store tx.new.conn.now) }
{
    if has_part {
        update(alloc, tx, part)
    } else {
        insert(alloc, tx, part)
    }
}

/// Puts the fee row, in the place of the one that its part has, if it has one.
pub(crate) fn put_fee<S: Alter>(
    alloc: Global,
    tx: &mut Transaction<'_, S>,
    fee: &PartFee,
    has_part: bool,
) -> Result<(), Error>
    requires writing { HasCleanDisk (state S.Store tx.old.conn.now) → IsWriting (state S.Store tx.old.conn.now) }
    requires known { HasCleanDisk (state S.Store tx.old.conn.now) → HasItsFeeRow has_part (tables (state S.Store tx.old.conn.now)) fee.now }
    ensures same_reference { tx.new.conn.ghost_name ≡ tx.old.conn.ghost_name }
    ensures puts { TurnsBooks (with_fees (fee.now ∷ [])) result (state S.Store tx.old.conn.now) (state S.Store tx.new.conn.now) }
{
    if has_part {
        update(alloc, tx, fee)
    } else {
        insert(alloc, tx, fee)
    }
}

// Puts the fee row, if there is one.
fn put_some_fee<S: Alter>(
    alloc: Global,
    tx: &mut Transaction<'_, S>,
    fee: &Option<PartFee>,
    has_part: bool,
) -> Result<(), Error>
    requires writing { HasCleanDisk (state S.Store tx.old.conn.now) → IsWriting (state S.Store tx.old.conn.now) }
    requires known { HasCleanDisk (state S.Store tx.old.conn.now)
        → IfSome fee.now (HasItsFeeRow has_part (tables (state S.Store tx.old.conn.now))) }
    ensures same_reference { tx.new.conn.ghost_name ≡ tx.old.conn.ghost_name }
    ensures puts { TurnsBooks (with_fees (some_row fee.now)) result (state S.Store tx.old.conn.now) (state S.Store tx.new.conn.now) }
{
    match fee {
        Some(fee) => put_fee(alloc, tx, fee, has_part),
        None => Ok(()),
    }
}

/// The rows of a batch: charges that are new, and a part row and a fee row that take the place of those that the branch has, if it has
/// them. The charges fall due in months that lines know.
#[derive(Clone, Copy)]
pub(crate) struct PostedRows<'a> {
    pub rows: &'a BatchRows,
}

impl Put for PostedRows<'_> {
    ghost after = { λ it. with_batch_rows it.rows.now };

    ghost fits = { λ it t. plans.AreNew it.rows.now.charges.items t.books.charges × HasItsPart it.rows.now t };

    ghost can_put = { λ it. FallsInTime it.rows.now };

    fn put<S: Alter>(&self, alloc: Global, tx: &mut Transaction<'_, S>) -> Result<(), Error> {
        let rows = self.rows;
        put_charges(alloc, tx, &rows.charges)?;
        put_part(alloc, tx, &rows.part, rows.has_part)?;
        put_some_fee(alloc, tx, &rows.fee, rows.has_part)
    }
}
