//! All rows of a kind.

use dh_books::Books;
use dh_test_kit::{Answer, ToLine, Unreadable, add_part, all_lines, or_none};
use std::alloc::Global;
use std::collections::btree_map::{Keys, Values};
use std::fmt::Display;

fn all<K: Ord, T: ToLine>(alloc: Global, rows: Values<'_, K, T>) -> Answer {
    Ok(all_lines(alloc, rows)?)
}

fn all_keys<K: Ord + Display, T>(alloc: Global, keys: Keys<'_, K, T>) -> Answer {
    let mut text = String::new(alloc);
    for key in keys {
        add_part(&mut text, key.to_string(alloc)?.as_str())?;
    }
    Ok(or_none(alloc, text)?)
}

/// `rows,KIND`: all rows of the kind, rising by key.
pub(crate) fn listed(alloc: Global, books: &Books, kind: &str) -> Answer {
    match kind {
        "branches" => all(alloc, books.branches()),
        "staff" => all(alloc, books.staff()),
        "owners" => all(alloc, books.owners()),
        "properties" => all(alloc, books.properties()),
        "clients" => all(alloc, books.clients()),
        "registrations" => all(alloc, books.registrations()),
        "viewings" => all(alloc, books.viewings()),
        "inspections" => all(alloc, books.inspections()),
        "leases" => all(alloc, books.leases()),
        "endings" => all(alloc, books.endings()),
        "branch fees" => all(alloc, books.branch_fees()),
        "part fees" => all(alloc, books.part_fees()),
        "charges" => all(alloc, books.charges()),
        "receipts" => all(alloc, books.receipts()),
        "runs" => all(alloc, books.runs()),
        "parts" => all(alloc, books.parts()),
        "branch numbers" => all_keys(alloc, books.branch_numbers()),
        "run months" => all_keys(alloc, books.run_months()),
        _ => Err(Unreadable),
    }
}

/// `count,KIND`: how many rows there are.
pub(crate) fn counted(alloc: Global, books: &Books, kind: &str) -> Answer {
    let count = match kind {
        "charges" => books.charges().count(),
        "parts" => books.parts().count(),
        "part fees" => books.part_fees().count(),
        "runs" => books.runs().count(),
        "receipts" => books.receipt_count(),
        _ => return Err(Unreadable),
    };
    Ok(count.to_string(alloc)?)
}
