//! The tables of the second version made and filled, within a transaction.

ghost use Rattle.std.specs.Prelude.{◌≡◌};
ghost use Rattle.std.specs.FinMap.{values};
ghost use Rattle.sqlite.specs.State.{HasCleanDisk};
ghost use Rattle.sqlite.specs.Held.{state};
ghost use Rattle.dh_types.specs.declared.version.Version.TheVariants.{First, Second};
ghost use Rattle.dh_schema.specs.Store.{IsWriting, tables};
ghost use Rattle.dh_schema.specs.Putting.{TurnsBooks};
ghost use Rattle.dh_runs.specs.Taking.{HasVersion};
ghost use Rattle.dh_runs.specs.Migrated.{HaveNoFees, as_second, migrated_state, no_fee, with_no_fees};

use crate::rows::put_fee;
use dh_ddl::create_later;
use dh_schema::Put;
use dh_tables::set_version;
use dh_types::{Fee, Part, PartFee, Pence, Version};
use sqlite::{Alter, Error, Transaction};
use std::alloc::Global;

// Makes the tables that came with the second version, and sets the version.
fn make_second<S: Alter>(tx: &mut Transaction<'_, S>) -> Result<(), Error>
    requires writing { HasCleanDisk (state S.Store tx.old.conn.now) → IsWriting (state S.Store tx.old.conn.now) }
    requires first { HasCleanDisk (state S.Store tx.old.conn.now) → HasVersion First (state S.Store tx.old.conn.now) }
    ensures same_reference { tx.new.conn.ghost_name ≡ tx.old.conn.ghost_name }
    ensures puts { TurnsBooks as_second result (state S.Store tx.old.conn.now) (state S.Store tx.new.conn.now) }
{
    create_later(tx)?;
    set_version(tx, Version::Second)
}

// The fee row of a part that was posted before there were fees.
fn no_fee(part: &Part) -> PartFee
    ensures { result ≡ no_fee part.now }
{
    PartFee {
        month: part.month,
        branch: part.branch,
        fee: Fee::of_number(0),
        total: Pence::of_pence(0),
    }
}

// Puts the fee rows of the parts, the last of them first.
fn put_no_fees<S: Alter>(
    alloc: Global,
    tx: &mut Transaction<'_, S>,
    parts: &[Part],
) -> Result<(), Error>
    requires writing { HasCleanDisk (state S.Store tx.old.conn.now) → IsWriting (state S.Store tx.old.conn.now) }
    requires second { HasCleanDisk (state S.Store tx.old.conn.now) → HasVersion Second (state S.Store tx.old.conn.now) }
    requires none { HasCleanDisk (state S.Store tx.old.conn.now) → HaveNoFees parts.now (tables (state S.Store tx.old.conn.now)).books }
    ensures same_reference { tx.new.conn.ghost_name ≡ tx.old.conn.ghost_name }
    ensures puts { TurnsBooks (with_no_fees parts.now) result (state S.Store tx.old.conn.now) (state S.Store tx.new.conn.now) }
{
    for left in (0..parts.len()).rev() {
        put_fee(alloc, tx, &no_fee(&parts[left]), false)?;
    }
    Ok(())
}

/// What takes tables of the first version to the second, without an open run: the tables that came with it, a fee of 0 for each of these
/// parts, which are all that there are, and its version.
#[derive(Clone, Copy)]
pub(crate) struct SecondVersion<'a> {
    pub parts: &'a [Part],
}

impl Put for SecondVersion<'_> {
    ghost after = { λ _. migrated_state };

    ghost fits = { λ it t. (t.books.version ≡ First) × (it.parts.now ≡ values t.books.parts) };

    fn put<S: Alter>(&self, alloc: Global, tx: &mut Transaction<'_, S>) -> Result<(), Error> {
        make_second(tx)?;
        put_no_fees(alloc, tx, self.parts)
    }
}
