//! Whether tables are taken.

ghost use Rattle.std.specs.Prelude.{◌≡◌, ◌≤◌, IsTrue, IfOk, IfErr, OnOk};
ghost use Rattle.sqlite.specs.State.{HasCleanDisk};
ghost use Rattle.sqlite.specs.Held.{state};
ghost use Rattle.sqlite_trees.specs.View.{doubt};
ghost use Rattle.dh_model.specs.Rules.{MeetsRules};
ghost use Rattle.dh_model.specs.Runs.{batch_size};
ghost use Rattle.dh_ddl.specs.Versions.{schema_of};
ghost use Rattle.dh_tables.specs.Calls.{HasOurTables};
ghost use Rattle.dh_schema.specs.Store.{HasItsSchema, IsReady, tables};
ghost use Rattle.dh_schema.specs.Tables.{IsSound, books_in};
ghost use Rattle.dh_runs.specs.Problems.{IsFoundIn, IsNotRead};
ghost use Rattle.dh_runs.specs.Taking.{GivesVersion, HasTablesOfAnother, HasVersion, IsFirstProblem, IsOfVersion, IsProblemOf, IsResting, LeavesAsTheyWere};
ghost use Rattle.dh_runs.specs.Taking.{ReadsAsItDid, Takes, TakesAsTheyAre};

use crate::problem::Problem;
use dh_audit::audit;
use dh_books::Books;
use dh_rows::version_number;
use dh_schema::{load_tables, version};
use dh_types::{Refusal, Version};
use sqlite::{Alter, Connection};
use std::alloc::Global;

// The version of the file, which is the one that is wanted. It refuses tables of another version, or of none, and turns those away
// that are not of the version that `meta` gives.
fn check_version<S: Alter>(
    alloc: Global,
    conn: &mut Connection<S>,
    wanted: Version,
) -> Result<Version, Problem>
    requires { HasCleanDisk (state S.Store conn.old) → IsResting (state S.Store conn.old) }
    ensures ours { OnOk result (HasOurTables (state S.Store conn.old)) }
    ensures tables { IfOk result (λ version. (state S.Store conn.old).now.schema ≡ schema_of version) }
    ensures given { HasCleanDisk (state S.Store conn.new) → IfOk result (λ version. GivesVersion version (state S.Store conn.old).now.trees) }
    ensures wanted { HasCleanDisk (state S.Store conn.new) → OnOk result (GivesVersion wanted (state S.Store conn.old).now.trees) }
    ensures refused { HasCleanDisk (state S.Store conn.new) → IfErr result (IsProblemOf wanted (state S.Store conn.old).now.trees) }
    ensures cause { IfErr result IsFirstProblem }
    ensures still { HasCleanDisk (state S.Store conn.new) → OnOk result (IsTrue (state S.Store conn.new).is_open) }
    ensures still_open { HasCleanDisk (state S.Store conn.new)
        → IfErr result (λ problem. IsOfVersion problem → IsTrue (state S.Store conn.new).is_open) }
    ensures others { ¬ HasOurTables (state S.Store conn.old) → IsNotRead result × (conn.new ≡ conn.old) }
    ensures another { HasCleanDisk (state S.Store conn.new) → HasTablesOfAnother wanted (state S.Store conn.old) → IsNotRead result }
    ensures same { HasCleanDisk (state S.Store conn.new) → IsTrue (state S.Store conn.new).is_open
        → ReadsAsItDid (state S.Store conn.old) (state S.Store conn.new) }
    ensures crash { HasCleanDisk (state S.Store conn.new) → LeavesAsTheyWere (state S.Store conn.old) (state S.Store conn.new) }
    ensures was_clean { doubt (state S.Store conn.old).is_clean ≤ doubt (state S.Store conn.new).is_clean }
{
    let found = version(alloc, conn)?;
    if found.number() != version_number(wanted) {
        return Err(Problem::Refused(Refusal::Version(found.number())));
    }
    Ok(found.agreed()?)
}

// Whether the books meet the rules of the audit.
fn check_books(alloc: Global, books: &Books) -> Result<(), Problem>
    ensures sound { OnOk result (MeetsRules books.now.books batch_size) }
    ensures broken { IfErr result (IsFoundIn books.now.books) }
{
    match audit(alloc, books)? {
        Ok(()) => Ok(()),
        Err(rule) => Err(Problem::Refused(Refusal::Damaged(rule))),
    }
}

// The books of tables of the version that is wanted; it refuses tables that are not sound.
fn check_rows<S: Alter>(
    alloc: Global,
    conn: &mut Connection<S>,
    wanted: Version,
    version: Version,
) -> Result<Books, Problem>
    requires resting { HasCleanDisk (state S.Store conn.old) → IsResting (state S.Store conn.old) }
    requires reading { HasCleanDisk (state S.Store conn.old) → (state S.Store conn.old).now.schema ≡ schema_of version }
    requires given { HasCleanDisk (state S.Store conn.old) → GivesVersion version (state S.Store conn.old).now.trees }
    requires wanted { HasCleanDisk (state S.Store conn.old) → GivesVersion wanted (state S.Store conn.old).now.trees }
    ensures books { HasCleanDisk (state S.Store conn.new) → IfOk result (λ it. it.books ≡ books_in (state S.Store conn.old).now.trees) }
    ensures sound { HasCleanDisk (state S.Store conn.new) → OnOk result (IsSound (state S.Store conn.old).now.trees) }
    ensures its { HasCleanDisk (state S.Store conn.new) → OnOk result (HasItsSchema (state S.Store conn.old)) }
    ensures refused { HasCleanDisk (state S.Store conn.new) → IfErr result (IsProblemOf wanted (state S.Store conn.old).now.trees) }
    ensures cause { IfErr result IsFirstProblem }
    ensures still { HasCleanDisk (state S.Store conn.new) → OnOk result (IsTrue (state S.Store conn.new).is_open) }
    ensures kept { TakesAsTheyAre (state S.Store conn.old) (state S.Store conn.new) }
{
    let books = load_tables(alloc, conn, version)?;
    check_books(alloc, &books)?;
    Ok(books)
}

/// [`check`], which hands back the books that it loaded, without the run that they show as open.
pub(crate) fn checked_books<S: Alter>(
    alloc: Global,
    conn: &mut Connection<S>,
    wanted: Version,
) -> Result<Books, Problem>
    requires { HasCleanDisk (state S.Store conn.old) → IsResting (state S.Store conn.old) }
    ensures books { HasCleanDisk (state S.Store conn.new) → IfOk result (λ it. it.books ≡ (tables (state S.Store conn.old)).books) }
    ensures ready { HasCleanDisk (state S.Store conn.new) → OnOk result (IsReady (state S.Store conn.new)) }
    ensures version { HasCleanDisk (state S.Store conn.new) → OnOk result (HasVersion wanted (state S.Store conn.new)) }
    ensures takes { Takes S.Store wanted conn.old conn.new result }
    ensures kept { TakesAsTheyAre (state S.Store conn.old) (state S.Store conn.new) }
{
    let version = check_version(alloc, conn, wanted)?;
    check_rows(alloc, conn, wanted, version)
}

/// Whether the tables are sound, and of the version that is wanted. Refusal 16 comes exactly where `meta` gives another version; else
/// refusal 17 exactly where they are not sound, with 0 where a column does not hold a value of its kind or `meta` gives no version, or
/// the least rule of the audit that is broken. Fault 21 or 22 comes where memory ran out or the store failed, or the tables are not
/// ours, or not those of the version that `meta` gives. It changes nothing, at a fault too.
pub fn check<S: Alter>(
    alloc: Global,
    conn: &mut Connection<S>,
    wanted: Version,
) -> Result<(), Problem>
    requires { HasCleanDisk (state S.Store conn.old) → IsResting (state S.Store conn.old) }
    ensures ready { HasCleanDisk (state S.Store conn.new) → OnOk result (IsReady (state S.Store conn.new)) }
    ensures version { HasCleanDisk (state S.Store conn.new) → OnOk result (HasVersion wanted (state S.Store conn.new)) }
    ensures takes { Takes S.Store wanted conn.old conn.new result }
    ensures kept { TakesAsTheyAre (state S.Store conn.old) (state S.Store conn.new) }
{
    let _books = checked_books(alloc, conn, wanted)?;
    Ok(())
}
