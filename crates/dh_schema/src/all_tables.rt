//! Reading the tables of all kinds into books, one after the other.

ghost use Rattle.std.specs.Prelude.{◌≡◌, ◌++◌, List, [], ◌∷◌};
ghost use Rattle.std.specs.List.{AllByRecursion};
ghost use Rattle.std.specs.FinMap as fin;
ghost use Rattle.sqlite.specs.State.{HasCleanDisk};
ghost use Rattle.sqlite.specs.Held.{state};
ghost use Rattle.dh_sql.specs.Shape.{IsStored};
ghost use Rattle.dh_model.specs.Kinds.{Kind};
ghost use Rattle.dh_ddl.specs.Versions.{schema_of};
ghost use Rattle.dh_tables.specs.Calls.{HasTables};
ghost use Rattle.dh_tables.specs.Listing.{IsLoaded};
ghost use Rattle.dh_schema.specs.LoadFaults.{load_outcome};
ghost use Rattle.dh_schema.specs.Loaded.{HasNone, HasTablesOf, LacksEach, Loads, Reads, kinds_of};

use crate::load_fault::LoadFault;
use dh_books::Books;
use dh_tables::{Listed, load_all};
use dh_types::{
    Branch, BranchFee, Charge, Client, Ending, Inspection, Lease, Owner, Part, PartFee, Property,
    Receipt, Registration, Run, Staff, Version, Viewing,
};
use sqlite::{Alter, Connection, Error};
use std::alloc::Global;
use std::marker::PhantomData;

// What the reading of a table comes to: damage is told as damage, and a fault as what it is.
fn read_whole(read: Result<bool, Error>) -> Result<(), LoadFault>
    ensures { result ≡ load_outcome read }
{
    match read {
        Ok(true) => Ok(()),
        Ok(false) => Err(LoadFault::Damaged),
        Err(error) => Err(error.into()),
    }
}

// Loads a table into books that have none of it; damage where a row is no record.
fn load_table<R: Listed, S: Alter>(
    alloc: Global,
    conn: &mut Connection<S>,
    books: &mut Books,
) -> Result<(), LoadFault>
    requires reading { HasCleanDisk (state S.Store conn.old) → HasTables R.since (state S.Store conn.old) }
    requires none { HasCleanDisk (state S.Store conn.old) → R.accessor.held books.old ≡ fin.empty }
    ensures { Reads (IsLoaded R.shape R.order R.accessor (state S.Store conn.old).now.trees books.old books.new)
        (¬ AllByRecursion (IsStored R.shape) ((state S.Store conn.old).now.trees R.shape.tree)) result
        (state S.Store conn.old) (state S.Store conn.new) }
{
    read_whole(load_all::<R, S>(alloc, conn, books))
}

// Tables that are loaded one after the other.
trait Tables {
    // The kinds of their records.
    ghost kinds: { List Kind };

    // Loads them into books that have none of it; damage where a row is no record.
    fn load<S: Alter>(
        alloc: Global,
        conn: &mut Connection<S>,
        books: &mut Books,
    ) -> Result<(), LoadFault>
        requires reading { HasCleanDisk (state S.Store conn.old) → HasTablesOf kinds (state S.Store conn.old).now.schema }
        requires none { HasCleanDisk (state S.Store conn.old) → LacksEach kinds (state S.Store conn.old).now.trees books.old }
        ensures { Loads kinds result (state S.Store conn.old) (state S.Store conn.new) books.old books.new };
}

// The table of a type of record.
struct Table<R>(PhantomData<R>);

impl<R: Listed> Tables for Table<R> {
    ghost kinds = { R.is_kind.kind ∷ [] };

    fn load<S: Alter>(
        alloc: Global,
        conn: &mut Connection<S>,
        books: &mut Books,
    ) -> Result<(), LoadFault> {
        load_table::<R, S>(alloc, conn, books)
    }
}

impl<A: Tables, B: Tables> Tables for (A, B) {
    ghost kinds = { A.kinds ++ B.kinds };

    fn load<S: Alter>(
        alloc: Global,
        conn: &mut Connection<S>,
        books: &mut Books,
    ) -> Result<(), LoadFault> {
        A::load(alloc, conn, books)?;
        B::load(alloc, conn, books)
    }
}

type People = (Table<Branch>, (Table<Staff>, (Table<Owner>, Table<Client>)));

type Lettings = (
    Table<Property>,
    (Table<Registration>, (Table<Viewing>, Table<Inspection>)),
);

type Accounts = (Table<Lease>, (Table<Charge>, Table<Receipt>));

type RentRuns = (Table<Run>, Table<Part>);

// Those of the first version.
type FirstTables = (People, (Lettings, (Accounts, RentRuns)));

// And those that came with the second.
type LaterTables = (Table<BranchFee>, (Table<PartFee>, Table<Ending>));

/// Loads the tables of all kinds that the version has into books that have no record.
pub(crate) fn load_records<S: Alter>(
    alloc: Global,
    conn: &mut Connection<S>,
    version: Version,
    books: &mut Books,
) -> Result<(), LoadFault>
    requires reading { HasCleanDisk (state S.Store conn.old) → (state S.Store conn.old).now.schema ≡ schema_of version }
    requires none { HasCleanDisk (state S.Store conn.old) → HasNone (kinds_of version) books.old }
    ensures { Loads (kinds_of version) result (state S.Store conn.old) (state S.Store conn.new) books.old books.new }
{
    match version {
        Version::First => <FirstTables as Tables>::load(alloc, conn, books),
        Version::Second => <(FirstTables, LaterTables) as Tables>::load(alloc, conn, books),
    }
}
