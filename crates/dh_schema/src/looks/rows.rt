//! The rows that a command or a question looks at.

ghost use Rattle.std.specs.Prelude.{◌≡◌, ◌-◌, None, IfOk};
ghost use Rattle.std.specs.FinMap.{get};
ghost use Rattle.sqlite.specs.State.{HasCleanDisk};
ghost use Rattle.sqlite.specs.Held.{state};
ghost use Rattle.dh_days.specs.declared.limits.TheConstants.{FIRST_MONTH};
ghost use Rattle.dh_model.specs.Books.{empty_books, start};
ghost use Rattle.dh_model.specs.Whole.{open_row};
ghost use Rattle.dh_laws.specs.Looks.{unless_closed};
ghost use Rattle.dh_schema.specs.Store.{IsReady, tables};
ghost use Rattle.dh_schema.specs.Months.{AreMonthsOf, IsReadyIn};
ghost use Rattle.dh_schema.specs.Reading.{OnlyReads};

use crate::StoreFault;
use dh_books::Books;
use dh_days::limits::FIRST_MONTH;
use dh_rows::Meta;
use dh_tables::{RunOf, find, find_meta};
use dh_types::{EntryMonth, Month, Run, Version};
use sqlite::{Alter, Connection};
use std::alloc::Global;

/// Books of this version without a row, for those that are looked at. Their months stand for nothing.
pub fn no_rows_of(alloc: Global, version: Version) -> Books
    ensures { result ≡ record { books = record (empty_books FIRST_MONTH) { version = version }; open_run = None } }
{
    let month = Month::of_number(FIRST_MONTH);
    Books::new(alloc, version, month, month)
}

/// Books without a row, for those that are looked at. Their months and their version stand for nothing.
pub fn no_rows(alloc: Global) -> Books
    ensures { result ≡ start FIRST_MONTH }
{
    no_rows_of(alloc, Version::Second)
}

/// The version and the months of the tables. That they have none comes only from a store that is not clean.
pub fn months_now<S: Alter>(alloc: Global, conn: &mut Connection<S>) -> Result<Meta, StoreFault>
    requires { HasCleanDisk (state S.Store conn.old) → IsReady (state S.Store conn.old) }
    ensures found { HasCleanDisk (state S.Store conn.new) → IfOk result (λ months. AreMonthsOf months (tables (state S.Store conn.old)).books) }
    ensures reads { OnlyReads (state S.Store conn.old) (state S.Store conn.new) result }
{
    match find_meta(alloc, conn)? {
        Some(months) => Ok(months),
        None => Err(StoreFault::unclean(conn)),
    }
}

// The run of the month before the next. A month past those of lines comes only from a store that is not clean.
fn last_run<S: Alter>(
    alloc: Global,
    conn: &mut Connection<S>,
    months: Meta,
) -> Result<Option<Run>, StoreFault>
    requires { HasCleanDisk (state S.Store conn.old) → IsReadyIn months (state S.Store conn.old) }
    ensures found { HasCleanDisk (state S.Store conn.new)
        → IfOk result (λ run. run ≡ get (tables (state S.Store conn.old)).books.runs ((tables (state S.Store conn.old)).books.next - 1)) }
    ensures reads { OnlyReads (state S.Store conn.old) (state S.Store conn.new) result }
{
    let next = months.next().number();
    if next <= months.first().number() {
        return Ok(None);
    }
    let Some(month) = EntryMonth::try_of_number(i64::from(next) - 1) else {
        return Err(StoreFault::unclean(conn));
    };
    Ok(find(alloc, conn, &RunOf { month })?)
}

fn unless_closed(run: Option<Run>) -> Option<Run>
    ensures { result ≡ unless_closed run }
{
    match run {
        Some(run) if !run.is_closed => Some(run),
        _ => None,
    }
}

/// The run that is open: that of the month before the next, where it is not closed.
pub fn find_open_run<S: Alter>(
    alloc: Global,
    conn: &mut Connection<S>,
    months: Meta,
) -> Result<Option<Run>, StoreFault>
    requires { HasCleanDisk (state S.Store conn.old) → IsReadyIn months (state S.Store conn.old) }
    ensures found { HasCleanDisk (state S.Store conn.new) → IfOk result (λ run. run ≡ open_row (tables (state S.Store conn.old)).books) }
    ensures reads { OnlyReads (state S.Store conn.old) (state S.Store conn.new) result }
{
    let run = last_run(alloc, conn, months)?;
    Ok(unless_closed(run))
}
