//! Tables that are made, and what is told of those that are read.

ghost use Rattle.std.specs.Prelude.{◌≤◌};
ghost use Rattle.dh_days.specs.declared.limits.TheConstants.{LAST_ENTRY_MONTH};

use dh_books::Books;
use dh_schema::{FileVersion, LoadFault, install, load, version};
use dh_types::{Month, Version};
use sqlite::{Alter, Connection};
use std::alloc::{AllocError, Global};

/// How making the tables ends.
pub fn install_text<S: Alter>(
    alloc: Global,
    conn: &mut Connection<S>,
    first: Month,
) -> Result<String, AllocError>
    requires { first ≤ LAST_ENTRY_MONTH }
{
    match install(alloc, conn, first) {
        Ok(()) => "ok".to_string(alloc),
        Err(fault) => format!(in alloc; "{}", fault.fault()),
    }
}

fn fault_text(alloc: Global, fault: LoadFault) -> Result<String, AllocError> {
    match fault {
        LoadFault::Damaged => "damaged".to_string(alloc),
        LoadFault::Fault(fault) => format!(in alloc; "{}", fault.fault()),
    }
}

fn sum(counts: &[usize]) -> usize {
    let mut sum = 0usize;
    for count in counts {
        sum = sum.saturating_add(*count);
    }
    sum
}

fn row_count(books: &Books) -> usize {
    sum(&[
        books.branches().count(),
        books.staff().count(),
        books.owners().count(),
        books.clients().count(),
        books.properties().count(),
        books.registrations().count(),
        books.viewings().count(),
        books.inspections().count(),
        books.leases().count(),
        books.endings().count(),
        books.charges().count(),
        books.receipts().count(),
        books.runs().count(),
        books.parts().count(),
        books.branch_fees().count(),
        books.part_fees().count(),
    ])
}

// What stands behind a text of books or tables of this version: nothing of the second.
fn of_the_version(alloc: Global, version: Version) -> Result<String, AllocError> {
    match version {
        Version::First => " of the first version".to_string(alloc),
        Version::Second => Ok(String::new(alloc)),
    }
}

/// How many rows the books have, and of which version they are where it is not the second.
pub(crate) fn books_loaded_text(alloc: Global, books: &Books) -> Result<String, AllocError> {
    let rows = row_count(books);
    let version = of_the_version(alloc, books.version())?;
    format!(in alloc; "{rows} rows{}", version.as_str())
}

/// How many rows the tables have, and of which version the books are where it is not the second; or why they are not loaded.
pub fn load_text<S: Alter>(alloc: Global, conn: &mut Connection<S>) -> Result<String, AllocError> {
    match load(alloc, conn) {
        Ok(books) => books_loaded_text(alloc, &books),
        Err(fault) => fault_text(alloc, fault),
    }
}

// The number that meta gives, and of which version the tables are where it is not the second.
fn file_version_text(alloc: Global, found: FileVersion) -> Result<String, AllocError> {
    let number = found.number();
    match found.tables() {
        Version::First => format!(in alloc; "version {number} in tables of the first"),
        Version::Second => format!(in alloc; "version {number}"),
    }
}

/// The version that the tables give, or why there is none.
pub fn version_text<S: Alter>(
    alloc: Global,
    conn: &mut Connection<S>,
) -> Result<String, AllocError> {
    match version(alloc, conn) {
        Ok(found) => file_version_text(alloc, found),
        Err(fault) => fault_text(alloc, fault),
    }
}
