//! The batches that the open run lacks, from the rows that they are counted out of.

ghost use Rattle.std.specs.Prelude.{◌≡◌, ◌≤◌, Some, IsTrue, IfOk, IfErr, IfSome, OnOk, OnErr};
ghost use Rattle.std.specs.FinMap as fin;
ghost use Rattle.sqlite.specs.State.{HasCleanDisk};
ghost use Rattle.sqlite.specs.Held.{state};
ghost use Rattle.sqlite_trees.specs.View.{doubt};
ghost use Rattle.dh_model.specs.Runs.{batch_size};
ghost use Rattle.dh_model.specs.Whole.{batches_shown};
ghost use Rattle.dh_leases.specs.Plans.{HaveTheLeases, IsPlanOf, IsPlanned};
ghost use Rattle.dh_schema.specs.Faults.{IsFirstFault};
ghost use Rattle.dh_schema.specs.Store.{IsReady, Leaves, StaysReady, tables};
ghost use Rattle.dh_schema.specs.Months.{IsReadyIn, IsReadyOf};
ghost use Rattle.dh_schema.specs.Reading.{OnlyReads};
ghost use Rattle.dh_runs.specs.Batches.{CanBePosted, HasRoom};
ghost use Rattle.dh_runs.specs.Planning.{with_branches};

use dh_books::Books;
use dh_leases::{Plan, batches_shown, plan_of};
use dh_model::OpenRun;
use dh_rows::Meta;
use dh_schema::{
    StoreFault, find_open_run, look, look_at_all, look_at_later, look_at_lettings, months_now,
    no_rows, no_rows_of,
};
use dh_tables::PartsOfMonth;
use dh_types::{Branch, BranchFee, EntryMonth, Version};
use sqlite::{Alter, Connection};
use std::alloc::Global;

// The batches that the parts of the month's run stand for.
fn done_in<S: Alter>(
    alloc: Global,
    conn: &mut Connection<S>,
    month: EntryMonth,
) -> Result<u128, StoreFault>
    requires { HasCleanDisk (state S.Store conn.old) → IsReady (state S.Store conn.old) }
    ensures value { HasCleanDisk (state S.Store conn.new)
        → IfOk result (λ done. done ≡ batches_shown batch_size (tables (state S.Store conn.old)).books month) }
    ensures room { IfOk result HasRoom }
    ensures reads { OnlyReads (state S.Store conn.old) (state S.Store conn.new) result }
{
    let mut books = no_rows(alloc);
    look(alloc, conn, &PartsOfMonth { month }, &mut books)?;
    Ok(batches_shown(&books, month))
}

// How far the open run is.
fn run_now<S: Alter>(
    alloc: Global,
    conn: &mut Connection<S>,
    months: Meta,
) -> Result<Option<OpenRun>, StoreFault>
    requires { HasCleanDisk (state S.Store conn.old) → IsReadyIn months (state S.Store conn.old) }
    ensures value { HasCleanDisk (state S.Store conn.new) → IfOk result (λ run. run ≡ (tables (state S.Store conn.old)).open_run) }
    ensures room { IfOk result (λ run. IfSome run (λ it. HasRoom it.done)) }
    ensures reads { OnlyReads (state S.Store conn.old) (state S.Store conn.new) result }
{
    let Some(run) = find_open_run(alloc, conn, months)? else {
        return Ok(None);
    };
    let done = done_in(alloc, conn, run.month)?;
    Ok(Some(OpenRun {
        month: run.month,
        done,
    }))
}

// Puts the branches with their fees into books that have none.
fn look_at_branches<S: Alter>(
    alloc: Global,
    conn: &mut Connection<S>,
    version: Version,
    books: &mut Books,
) -> Result<(), StoreFault>
    requires ready { HasCleanDisk (state S.Store conn.old) → IsReadyOf version (state S.Store conn.old) }
    requires branches { HasCleanDisk (state S.Store conn.old) → books.old.books.branches ≡ fin.empty }
    requires fees { HasCleanDisk (state S.Store conn.old) → books.old.books.branch_fees ≡ fin.empty }
    ensures gathered { HasCleanDisk (state S.Store conn.new) → OnOk result (books.new ≡ with_branches (tables (state S.Store conn.old)).books books.old) }
    ensures reads { OnlyReads (state S.Store conn.old) (state S.Store conn.new) result }
{
    look_at_all::<Branch, S>(alloc, conn, books)?;
    look_at_later::<BranchFee, S>(alloc, conn, version, books)
}

// Books of the version, with the branches and fees, the properties, leases and endings of the tables.
fn books_of_leases<S: Alter>(
    alloc: Global,
    conn: &mut Connection<S>,
    version: Version,
) -> Result<Books, StoreFault>
    requires { HasCleanDisk (state S.Store conn.old) → IsReadyOf version (state S.Store conn.old) }
    ensures gathered { HasCleanDisk (state S.Store conn.new) → IfOk result (λ books. HaveTheLeases books.books (tables (state S.Store conn.old)).books) }
    ensures reads { OnlyReads (state S.Store conn.old) (state S.Store conn.new) result }
{
    let mut books = no_rows_of(alloc, version);
    look_at_branches(alloc, conn, version, &mut books)?;
    look_at_lettings(alloc, conn, version, &mut books)?;
    Ok(books)
}

/// The batches that the run lacks, which is the open one, over tables of this version.
pub(crate) fn plan_open<S: Alter>(
    alloc: Global,
    conn: &mut Connection<S>,
    version: Version,
    run: OpenRun,
) -> Result<Plan, StoreFault>
    requires ready { HasCleanDisk (state S.Store conn.old) → IsReadyOf version (state S.Store conn.old) }
    requires run { HasCleanDisk (state S.Store conn.old) → (tables (state S.Store conn.old)).open_run ≡ Some run }
    requires room { HasRoom run.done }
    ensures value { HasCleanDisk (state S.Store conn.new) → IfOk result (λ plan. IsPlanOf plan (tables (state S.Store conn.old))) }
    ensures postable { IfOk result CanBePosted }
    ensures reads { OnlyReads (state S.Store conn.old) (state S.Store conn.new) result }
{
    let books = books_of_leases(alloc, conn, version)?;
    Ok(plan_of(alloc, &books, run)?)
}

/// The batches that the open run lacks, or `None` where no run is open. It reads the version and the months, the branches with their fees, the
/// properties, the leases, the endings and what the run has so far, each once, and changes nothing, at a fault too.
pub fn plan_run<S: Alter>(
    alloc: Global,
    conn: &mut Connection<S>,
) -> Result<Option<Plan>, StoreFault>
    requires { HasCleanDisk (state S.Store conn.old) → IsReady (state S.Store conn.old) }
    ensures value { HasCleanDisk (state S.Store conn.new) → IfOk result (IsPlanned (tables (state S.Store conn.old))) }
    ensures postable { IfOk result (λ plan. IfSome plan CanBePosted) }
    ensures done { HasCleanDisk (state S.Store conn.new) → OnOk result (StaysReady (state S.Store conn.old) (state S.Store conn.new)) }
    ensures undone { HasCleanDisk (state S.Store conn.new) → IsTrue (state S.Store conn.new).is_open
        → OnErr result (StaysReady (state S.Store conn.old) (state S.Store conn.new)) }
    ensures cause { IfErr result IsFirstFault }
    ensures crash { HasCleanDisk (state S.Store conn.new) → Leaves (state S.Store conn.new) (λ t. t ≡ tables (state S.Store conn.old)) }
    ensures was_clean { doubt (state S.Store conn.old).is_clean ≤ doubt (state S.Store conn.new).is_clean }
{
    let months = months_now(alloc, conn)?;
    match run_now(alloc, conn, months)? {
        Some(run) => Ok(Some(plan_open(alloc, conn, months.version(), run)?)),
        None => Ok(None),
    }
}
