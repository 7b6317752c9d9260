//! The record that has a key.

ghost use Rattle.std.specs.Prelude.{◌≡◌, true, false, IfErr, IfOk, OnOk};
ghost use Rattle.std.specs.FinMap.{get};
ghost use Rattle.sqlite.specs.State.{HasCleanDisk, IsUnchanged};
ghost use Rattle.sqlite.specs.Held.{state};
ghost use Rattle.dh_types.specs.declared.version.Version.TheVariants.{First, Second};
ghost use Rattle.dh_model.specs.Kinds.{IsSince};
ghost use Rattle.dh_sql.specs.Shape.{rows_in, rows_of};
ghost use Rattle.dh_tables.specs.Calls.{CommitsNothing, HasOurTables};
ghost use Rattle.dh_tables.specs.Questions.{AsksFor, only_record};
ghost use Rattle.dh_schema.specs.LoadFaults.{IsLoadFault, IsTurnedAway};
ghost use Rattle.dh_schema.specs.Store.{Keeps};
ghost use Rattle.dh_schema.specs.Tables.{AreInOrder, rows_since, version_of_tables};

use crate::load_fault::LoadFault;
use crate::loaded_books::agreed_version;
use dh_tables::{Look, Tabled, rows_asked};
use dh_types::Version;
use sqlite::{Alter, Connection, Row};
use std::alloc::Global;

/// A kind of record of which the agency has a table, and which is asked for by its key.
pub trait KeyedRecord: Tabled {
    /// The question for the record that has a key.
    type ByKey: Look<Record = Self> + Drop;

    ghost question: { Self.Key → Self.ByKey };

    /// The question for the record that has the key.
    fn by_key(key: &Self::Key) -> Self::ByKey
        ensures { result ≡ question key.now };

    ghost asks_for: { (key : Self.Key) → AsksFor Self.Tabled.shape (Self.ByKey.asks (question key)) key };
}

// Whether tables of this version have what came with the other.
fn is_since(came: Version, version: Version) -> bool
    ensures yes { result ≡ true → IsSince came version }
    ensures no { result ≡ false → (came ≡ Second) × (version ≡ First) }
{
    match came {
        Version::First => true,
        Version::Second => version == Version::Second,
    }
}

// The record that the rows are, of which there is at most one.
fn only<R: Tabled>(alloc: Global, rows: &[Row]) -> Result<Option<R>, LoadFault>
    ensures found { IfOk result (λ found. rows_of R.shape {R = R.order} rows.now ≡ only_record R.shape found) }
    ensures cause { IfErr result IsLoadFault }
{
    match rows {
        [] => Ok(None),
        [row] => match R::from_row(alloc, row)? {
            Some(record) => Ok(Some(record)),
            None => Err(LoadFault::Damaged),
        },
        _ => Err(LoadFault::Damaged),
    }
}

/// The record that has the key, in tables that are in order where they are ours; `None` where none has it, or the version of the file
/// has no such records. Other tables are a fault of the store. `Damaged` comes where a row of the key is no record, or two have it. It changes nothing.
pub fn find<R: KeyedRecord, S: Alter>(
    alloc: Global,
    conn: &mut Connection<S>,
    key: &R::Key,
) -> Result<Option<R>, LoadFault>
    requires { HasCleanDisk (state S.Store conn.old) → HasOurTables (state S.Store conn.old) → AreInOrder (state S.Store conn.old).now.trees }
    ensures ours { OnOk result (HasOurTables (state S.Store conn.old)) }
    ensures found { HasCleanDisk (state S.Store conn.new)
        → IfOk result (λ found. found ≡ get (rows_since R.since (version_of_tables (state S.Store conn.old).now.trees)
        (rows_in R.shape {R = R.order} (state S.Store conn.old).now.trees)) key.now) }
    ensures cause { IfErr result IsLoadFault }
    ensures others { ¬ HasOurTables (state S.Store conn.old) → IsTurnedAway result × (conn.new ≡ conn.old) }
    ensures same { HasCleanDisk (state S.Store conn.new) → OnOk result (IsUnchanged (state S.Store conn.old) (state S.Store conn.new)) }
    ensures kept { HasCleanDisk (state S.Store conn.new) → Keeps (state S.Store conn.old) (state S.Store conn.new) }
    ensures crash { CommitsNothing (state S.Store conn.old) (state S.Store conn.new) }
{
    let version = agreed_version(alloc, conn)?;
    if !is_since(R::came_with(), version) {
        return Ok(None);
    }
    let rows = rows_asked(alloc, conn, &R::by_key(key))?;
    only::<R>(alloc, &rows)
}
