//! Reading the tables.

ghost use Rattle.std.specs.Prelude.{◌≡◌, pos, Some, None, Err, IfOk, IfErr, OnOk, OnErr};
ghost use Rattle.sqlite.specs.State.{HasCleanDisk, IsUnchanged};
ghost use Rattle.sqlite.specs.Held.{state};
ghost use Rattle.dh_types.specs.declared.version.Version.TheVariants.{First};
ghost use Rattle.dh_rows.specs.Cells.{version_number};
ghost use Rattle.dh_ddl.specs.Versions.{schema_of};
ghost use Rattle.dh_tables.specs.Calls.{CommitsNothing, HasOurTables, IsUndone};
ghost use Rattle.dh_tables.specs.MetaTable.{meta_rows};
ghost use Rattle.dh_schema.specs.LoadFaults.{IsLoadFault, IsOfStore, IsTurnedAway};
ghost use Rattle.dh_schema.specs.Store.{HasItsSchema, Keeps, tables};
ghost use Rattle.dh_schema.specs.Tables.{AreInOrder, HasValues, loaded_from, version_of_tables};
ghost use Rattle.dh_schema.specs.Version.{GivesAnother, only_version};

use crate::all_tables::load_records;
use crate::fault::StoreFault;
use crate::file_version::FileVersion;
use crate::load_fault::LoadFault;
use dh_books::Books;
use dh_ddl::tables_found;
use dh_leases::run_shown;
use dh_tables::{find_meta, meta_rows_shown};
use dh_types::Version;
use sqlite::types::ValueRef;
use sqlite::{Alter, Connection, Row};
use std::alloc::Global;

// The version whose tables these are. It turns tables away that are not ours, and does not touch them.
pub(crate) fn check_tables<S: Alter>(
    alloc: Global,
    conn: &Connection<S>,
) -> Result<Version, LoadFault>
    ensures ours { OnOk result (HasOurTables (state S.Store conn.now)) }
    ensures found { IfOk result (λ version. (state S.Store conn.now).now.schema ≡ schema_of version) }
    ensures cause { IfErr result IsOfStore }
{
    match tables_found(alloc, conn)? {
        Some(version) => Ok(version),
        None => Err(LoadFault::Fault(StoreFault::foreign(conn))),
    }
}

// The version of meta's rows, where it has just one.
fn version_of(rows: &[Row]) -> Result<i64, LoadFault>
    ensures found { IfOk result (λ n. only_version rows.now ≡ Some n) }
    ensures cause { IfErr result IsLoadFault }
    ensures damaged { result ≡ Err LoadFault.Damaged → only_version rows.now ≡ None }
{
    match rows {
        [row] => match row.get_ref(1) {
            Ok(ValueRef::Int(version)) => Ok(version),
            _ => Err(LoadFault::Damaged),
        },
        _ => Err(LoadFault::Damaged),
    }
}

/// Whose tables the file has, and the version that meta gives; `Damaged` where meta has not exactly one row. Tables that are not
/// ours are a fault of the store. It changes nothing.
pub fn version<S: Alter>(alloc: Global, conn: &mut Connection<S>) -> Result<FileVersion, LoadFault>
    ensures ours { OnOk result (HasOurTables (state S.Store conn.old)) }
    ensures tables { IfOk result (λ found. (state S.Store conn.old).now.schema ≡ schema_of found.tables) }
    ensures found { HasCleanDisk (state S.Store conn.new)
        → IfOk result (λ found. only_version (meta_rows (state S.Store conn.old).now.trees) ≡ Some found.number) }
    ensures cause { IfErr result IsLoadFault }
    ensures damaged { HasCleanDisk (state S.Store conn.new) → result ≡ Err LoadFault.Damaged
        → HasOurTables (state S.Store conn.old) × (only_version (meta_rows (state S.Store conn.old).now.trees) ≡ None) }
    ensures others { ¬ HasOurTables (state S.Store conn.old) → IsTurnedAway result × (conn.new ≡ conn.old) }
    ensures same { HasCleanDisk (state S.Store conn.new) → OnOk result (IsUnchanged (state S.Store conn.old) (state S.Store conn.new)) }
    ensures kept { HasCleanDisk (state S.Store conn.new) → Keeps (state S.Store conn.old) (state S.Store conn.new) }
    ensures crash { CommitsNothing (state S.Store conn.old) (state S.Store conn.new) }
{
    let tables = check_tables(alloc, conn)?;
    let rows = meta_rows_shown(conn)?;
    let number = version_of(&rows)?;
    Ok(FileVersion::found(conn, tables, number))
}

/// The version of the file, where meta gives the one whose tables it has; where it gives the other one, that is a fault of the store,
/// as tables that are not ours. `Damaged` comes where meta gives no version of ours. It changes nothing.
pub(crate) fn agreed_version<S: Alter>(
    alloc: Global,
    conn: &mut Connection<S>,
) -> Result<Version, LoadFault>
    ensures ours { OnOk result (HasOurTables (state S.Store conn.old)) }
    ensures found { IfOk result (λ version. (state S.Store conn.old).now.schema ≡ schema_of version) }
    ensures given { HasCleanDisk (state S.Store conn.new)
        → IfOk result (λ version. only_version (meta_rows (state S.Store conn.old).now.trees) ≡ Some (pos (version_number version))) }
    ensures cause { IfErr result IsLoadFault }
    ensures damaged { HasCleanDisk (state S.Store conn.new) → result ≡ Err LoadFault.Damaged
        → HasOurTables (state S.Store conn.old) × (¬ HasValues (state S.Store conn.old).now.trees) }
    ensures others { ¬ HasOurTables (state S.Store conn.old) → IsTurnedAway result × (conn.new ≡ conn.old) }
    ensures another { HasCleanDisk (state S.Store conn.new) → GivesAnother (state S.Store conn.old) → IsTurnedAway result }
    ensures same { HasCleanDisk (state S.Store conn.new) → OnOk result (IsUnchanged (state S.Store conn.old) (state S.Store conn.new)) }
    ensures kept { HasCleanDisk (state S.Store conn.new) → Keeps (state S.Store conn.old) (state S.Store conn.new) }
    ensures crash { CommitsNothing (state S.Store conn.old) (state S.Store conn.new) }
{
    let found = version(alloc, conn)?;
    found.agreed()
}

/// The tables of this version as books, without the open run that they show. `Damaged` comes exactly where a column does not hold a
/// value of its kind, or meta has not exactly one row. It changes nothing.
pub fn load_tables<S: Alter>(
    alloc: Global,
    conn: &mut Connection<S>,
    version: Version,
) -> Result<Books, LoadFault>
    requires reading { HasCleanDisk (state S.Store conn.old) → (state S.Store conn.old).now.schema ≡ schema_of version }
    requires given { HasCleanDisk (state S.Store conn.old)
        → only_version (meta_rows (state S.Store conn.old).now.trees) ≡ Some (pos (version_number version)) }
    ensures books { HasCleanDisk (state S.Store conn.new) → IfOk result (λ books. books ≡ loaded_from (state S.Store conn.old).now.trees) }
    ensures in_order { HasCleanDisk (state S.Store conn.new) → OnOk result (AreInOrder (state S.Store conn.old).now.trees) }
    ensures version { HasCleanDisk (state S.Store conn.new) → OnOk result (HasItsSchema (state S.Store conn.old)) }
    ensures cause { IfErr result IsLoadFault }
    ensures damaged { HasCleanDisk (state S.Store conn.new) → result ≡ Err LoadFault.Damaged → ¬ HasValues (state S.Store conn.old).now.trees }
    ensures same { HasCleanDisk (state S.Store conn.new) → OnOk result (IsUnchanged (state S.Store conn.old) (state S.Store conn.new)) }
    ensures undone { HasCleanDisk (state S.Store conn.new) → OnErr result (IsUndone (state S.Store conn.old) (state S.Store conn.new)) }
    ensures crash { CommitsNothing (state S.Store conn.old) (state S.Store conn.new) }
{
    // That the trees list the schema is what each connection keeps true of itself.
    let _listed = conn.schema();
    let Some(months) = find_meta(alloc, conn)? else {
        return Err(LoadFault::Damaged);
    };
    let mut books = Books::new(alloc, months.version(), months.first(), months.next());
    load_records(alloc, conn, version, &mut books)?;
    Ok(books)
}

/// The tables as books, with the open run that they show, where they are ours and of the version that meta gives; others are a fault
/// of the store. `Damaged` comes exactly where a column does not hold a value of its kind, or meta has not exactly one row of a version
/// of ours. It changes nothing.
pub fn load<S: Alter>(alloc: Global, conn: &mut Connection<S>) -> Result<Books, LoadFault>
    ensures ours { OnOk result (HasOurTables (state S.Store conn.old)) }
    ensures version { HasCleanDisk (state S.Store conn.new) → OnOk result (HasItsSchema (state S.Store conn.old)) }
    ensures books { HasCleanDisk (state S.Store conn.new) → IfOk result (λ books. books ≡ tables (state S.Store conn.old)) }
    ensures in_order { HasCleanDisk (state S.Store conn.new) → OnOk result (AreInOrder (state S.Store conn.old).now.trees) }
    ensures cause { IfErr result IsLoadFault }
    ensures damaged { HasCleanDisk (state S.Store conn.new) → result ≡ Err LoadFault.Damaged
        → HasOurTables (state S.Store conn.old) × (¬ HasValues (state S.Store conn.old).now.trees) }
    ensures others { ¬ HasOurTables (state S.Store conn.old) → IsTurnedAway result × (conn.new ≡ conn.old) }
    ensures another { HasCleanDisk (state S.Store conn.new) → GivesAnother (state S.Store conn.old) → IsTurnedAway result }
    ensures same { HasCleanDisk (state S.Store conn.new) → OnOk result (IsUnchanged (state S.Store conn.old) (state S.Store conn.new)) }
    ensures kept { HasCleanDisk (state S.Store conn.new) → Keeps (state S.Store conn.old) (state S.Store conn.new) }
    ensures crash { CommitsNothing (state S.Store conn.old) (state S.Store conn.new) }
{
    let version = agreed_version(alloc, conn)?;
    let mut books = load_tables(alloc, conn, version)?;
    let run = run_shown(&books);
    books.set_open_run(run);
    Ok(books)
}

/// [`load`] of tables of the first version.
pub fn load_1<S: Alter>(alloc: Global, conn: &mut Connection<S>) -> Result<Books, LoadFault>
    requires first { HasCleanDisk (state S.Store conn.old) → version_of_tables (state S.Store conn.old).now.trees ≡ First }
    ensures ours { OnOk result (HasOurTables (state S.Store conn.old)) }
    ensures version { HasCleanDisk (state S.Store conn.new) → OnOk result (HasItsSchema (state S.Store conn.old)) }
    ensures books { HasCleanDisk (state S.Store conn.new) → IfOk result (λ books. books ≡ tables (state S.Store conn.old)) }
    ensures in_order { HasCleanDisk (state S.Store conn.new) → OnOk result (AreInOrder (state S.Store conn.old).now.trees) }
    ensures cause { IfErr result IsLoadFault }
    ensures damaged { HasCleanDisk (state S.Store conn.new) → result ≡ Err LoadFault.Damaged
        → HasOurTables (state S.Store conn.old) × (¬ HasValues (state S.Store conn.old).now.trees) }
    ensures others { ¬ HasOurTables (state S.Store conn.old) → IsTurnedAway result × (conn.new ≡ conn.old) }
    ensures another { HasCleanDisk (state S.Store conn.new) → GivesAnother (state S.Store conn.old) → IsTurnedAway result }
    ensures same { HasCleanDisk (state S.Store conn.new) → OnOk result (IsUnchanged (state S.Store conn.old) (state S.Store conn.new)) }
    ensures kept { HasCleanDisk (state S.Store conn.new) → Keeps (state S.Store conn.old) (state S.Store conn.new) }
    ensures crash { CommitsNothing (state S.Store conn.old) (state S.Store conn.new) }
{
    load(alloc, conn)
}
