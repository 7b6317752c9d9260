//! What differs of books.

use dh_agency_test_kit::{books_text, rows_of};
use dh_rules::Books;
use dh_test_kit::{Tally, compare};
use std::io;

/// Compares the books kind by kind.
pub fn compare_books(
    rt: &HostRuntime,
    tally: &mut Tally,
    found: &Books,
    wanted: &Books,
) -> io::Result<()> {
    let found = books_text(rt.alloc(), found)?;
    let wanted = books_text(rt.alloc(), wanted)?;
    for line in wanted.as_str().lines() {
        let (kind, want) = line.split_once(": ").unwrap_or((line, ""));
        compare(rt, tally, kind, rows_of(found.as_str(), kind), want)?;
    }
    Ok(())
}
