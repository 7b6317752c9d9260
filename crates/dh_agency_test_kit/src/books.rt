//! Books as text.

use dh_books::Books;
use dh_test_kit::{ToLine, all_lines, version_name};
use std::alloc::{AllocError, Global};
use std::collections::btree_map::Values;

fn add_line(text: &mut String, name: &str, rest: &str) -> Result<(), AllocError> {
    text.push_str(name)?;
    text.push_str(": ")?;
    text.push_str(rest)?;
    text.push_str("\n")
}

fn add_rows<K: Ord, T: ToLine>(
    alloc: Global,
    text: &mut String,
    kind: &str,
    rows: Values<'_, K, T>,
) -> Result<(), AllocError> {
    let rows = all_lines(alloc, rows)?;
    add_line(text, kind, rows.as_str())
}

fn add_people(alloc: Global, text: &mut String, books: &Books) -> Result<(), AllocError> {
    add_rows(alloc, text, "branches", books.branches())?;
    add_rows(alloc, text, "staff", books.staff())?;
    add_rows(alloc, text, "owners", books.owners())?;
    add_rows(alloc, text, "clients", books.clients())
}

fn add_lettings(alloc: Global, text: &mut String, books: &Books) -> Result<(), AllocError> {
    add_rows(alloc, text, "properties", books.properties())?;
    add_rows(alloc, text, "registrations", books.registrations())?;
    add_rows(alloc, text, "viewings", books.viewings())?;
    add_rows(alloc, text, "inspections", books.inspections())
}

fn add_accounts(alloc: Global, text: &mut String, books: &Books) -> Result<(), AllocError> {
    add_rows(alloc, text, "leases", books.leases())?;
    add_rows(alloc, text, "endings", books.endings())?;
    add_rows(alloc, text, "charges", books.charges())?;
    add_rows(alloc, text, "receipts", books.receipts())?;
    add_rows(alloc, text, "runs", books.runs())?;
    add_rows(alloc, text, "parts", books.parts())
}

fn add_fees(alloc: Global, text: &mut String, books: &Books) -> Result<(), AllocError> {
    add_rows(alloc, text, "branch fees", books.branch_fees())?;
    add_rows(alloc, text, "part fees", books.part_fees())
}

/// The records of the books, each kind's on a line behind its name, rising by key; `none` where there is none; and the first and the
/// next month, and the version.
pub fn books_text(alloc: Global, books: &Books) -> Result<String, AllocError> {
    let mut text = String::new(alloc);
    add_people(alloc, &mut text, books)?;
    add_lettings(alloc, &mut text, books)?;
    add_accounts(alloc, &mut text, books)?;
    add_fees(alloc, &mut text, books)?;
    let months = format!(in alloc; "{} {}", books.first(), books.next())?;
    add_line(&mut text, "months", months.as_str())?;
    add_line(&mut text, "version", version_name(books.version()))?;
    Ok(text)
}
