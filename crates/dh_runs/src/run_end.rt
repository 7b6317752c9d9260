//! The end of a run in one transaction.

ghost use Rattle.std.specs.Prelude.{◌≡◌, Some, IfOk, IfNone, IfSome};
ghost use Rattle.std.specs.FinMap.{values};
ghost use Rattle.sqlite.specs.State.{HasCleanDisk};
ghost use Rattle.sqlite.specs.Held.{state};
ghost use Rattle.dh_model.specs.Rules.{parts_in};
ghost use Rattle.dh_model.specs.Runs.{batch_size, batches};
ghost use Rattle.dh_laws.specs.Batches.{IsAtItsEnd, IsUnderWay, closed_state, open_run_sum};
ghost use Rattle.dh_laws.specs.StateTables.{IsStateInOrder};
ghost use Rattle.dh_schema.specs.Steps.{Steps};
ghost use Rattle.dh_schema.specs.Store.{IsReady, tables};
ghost use Rattle.dh_schema.specs.Reading.{OnlyReads};
ghost use Rattle.dh_runs.specs.Closing.{IsOpenMonth, IsSumOfOpen, IsTooMuch, sum_of_parts};

use dh_books::Books;
use dh_schema::{Put, StoreFault, commit, find_open_run, look, months_now, no_rows};
use dh_tables::{PartsOfMonth, update};
use dh_types::{EntryMonth, Pence, RunSum};
use dh_values::limits::MOST_PENCE;
use sqlite::{Alter, Connection, Error, Transaction};
use std::alloc::Global;

// What the part rows of the books come to, in a run of this month. `None` where they are more than a run can have.
fn sum_of(month: EntryMonth, books: &Books) -> Option<RunSum>
    ensures some { IfSome result (λ sum. sum ≡ sum_of_parts month (values books.now.books.parts)) }
    ensures none { IfNone result (IsTooMuch (sum_of_parts month (values books.now.books.parts))) }
{
    let mut count = 0u32;
    let mut total = 0u64;
    for part in books.parts() {
        count = count.checked_add(part.count)?;
        total = total.checked_add(part.total.pence())?;
    }
    if total > MOST_PENCE {
        return None;
    }
    Some(RunSum {
        month,
        count,
        total: Pence::of_pence(total),
    })
}

// What the part rows of the open run come to, of which no batch is left. More than a run can have come only from a store that is not
// clean.
fn month_sum<S: Alter>(
    alloc: Global,
    conn: &mut Connection<S>,
    month: EntryMonth,
) -> Result<RunSum, StoreFault>
    requires ready { HasCleanDisk (state S.Store conn.old) → IsReady (state S.Store conn.old) }
    requires end { HasCleanDisk (state S.Store conn.old)
        → (tables (state S.Store conn.old)).open_run
        ≡ Some (record { month = month; done = batches batch_size (tables (state S.Store conn.old)).books month }) }
    ensures value { HasCleanDisk (state S.Store conn.new)
        → IfOk result (λ sum. sum ≡ sum_of_parts month (parts_in (tables (state S.Store conn.old)).books month)) }
    ensures reads { OnlyReads (state S.Store conn.old) (state S.Store conn.new) result }
{
    let mut books = no_rows(alloc);
    look(alloc, conn, &PartsOfMonth { month }, &mut books)?;
    match sum_of(month, &books) {
        Some(sum) => Ok(sum),
        None => Err(StoreFault::unclean(conn)),
    }
}

// What the open run comes to, of which no batch is left. It closes the row of the run.
#[derive(Clone, Copy)]
struct ClosingSum<'a> {
    sum: &'a RunSum,
}

impl Put for ClosingSum<'_> {
    ghost after = { λ _. closed_state };

    ghost fits = { λ it t. IsStateInOrder t × IsAtItsEnd t.books t.open_run × IsSumOfOpen it.sum.now t.books };

    fn put<S: Alter>(&self, alloc: Global, tx: &mut Transaction<'_, S>) -> Result<(), Error> {
        update(alloc, tx, self.sum)
    }
}

/// Closes the open run of this month, of which no batch is left, in one transaction: its row gets the count and the total of its
/// charges, which are answered. They are summed up from the month's part rows. At a fault the tables are these or those before, and
/// while the store is open those before.
pub(crate) fn close_month<S: Alter>(
    alloc: Global,
    conn: &mut Connection<S>,
    month: EntryMonth,
) -> Result<RunSum, StoreFault>
    requires ready { HasCleanDisk (state S.Store conn.old) → IsReady (state S.Store conn.old) }
    requires end { HasCleanDisk (state S.Store conn.old)
        → (tables (state S.Store conn.old)).open_run
        ≡ Some (record { month = month; done = batches batch_size (tables (state S.Store conn.old)).books month }) }
    ensures value { HasCleanDisk (state S.Store conn.new)
        → IfOk result (λ sum. sum ≡ open_run_sum (tables (state S.Store conn.old)).books (tables (state S.Store conn.old)).open_run) }
    ensures steps { Steps closed_state result (state S.Store conn.old) (state S.Store conn.new) }
{
    let sum = month_sum(alloc, conn, month)?;
    commit(alloc, conn, &ClosingSum { sum: &sum })?;
    Ok(sum)
}

// The month of the open run.
fn open_month<S: Alter>(alloc: Global, conn: &mut Connection<S>) -> Result<EntryMonth, StoreFault>
    requires ready { HasCleanDisk (state S.Store conn.old) → IsReady (state S.Store conn.old) }
    requires run { HasCleanDisk (state S.Store conn.old) → IsUnderWay (tables (state S.Store conn.old)).open_run }
    ensures value { HasCleanDisk (state S.Store conn.new) → IfOk result (IsOpenMonth (tables (state S.Store conn.old)).books) }
    ensures reads { OnlyReads (state S.Store conn.old) (state S.Store conn.new) result }
{
    let months = months_now(alloc, conn)?;
    match find_open_run(alloc, conn, months)? {
        Some(run) => Ok(run.month),
        None => Err(StoreFault::unclean(conn)),
    }
}

/// Closes the open run, of which no batch is left, as [`close_month`] does.
pub fn close_run<S: Alter>(alloc: Global, conn: &mut Connection<S>) -> Result<RunSum, StoreFault>
    requires ready { HasCleanDisk (state S.Store conn.old) → IsReady (state S.Store conn.old) }
    requires end { HasCleanDisk (state S.Store conn.old) → IsAtItsEnd (tables (state S.Store conn.old)).books (tables (state S.Store conn.old)).open_run }
    ensures value { HasCleanDisk (state S.Store conn.new)
        → IfOk result (λ sum. sum ≡ open_run_sum (tables (state S.Store conn.old)).books (tables (state S.Store conn.old)).open_run) }
    ensures steps { Steps closed_state result (state S.Store conn.old) (state S.Store conn.new) }
{
    let month = open_month(alloc, conn)?;
    close_month(alloc, conn, month)
}
