//! Leases: their months and starts, what no two of them share, and those that were ended early.

ghost use Rattle.std.specs.Prelude.{◌≡◌, ◌↔◌, ◌≤◌, true, map, IfOk};
ghost use Rattle.std.specs.FinMap as fin;
ghost use Rattle.dh_model.specs.Rules.{EndingsInOrder, IsEarly, IsInTime, LeasesInTime, OneStartADay};

use crate::distinct::are_distinct;
use dh_books::Books;
use dh_types::{Ending, EntryDay, Id, Lease, Month};
use dh_values::limits::{LEAST_LEASE_MONTHS, MOST_LEASE_MONTHS};
use std::alloc::{AllocError, Global};

// Whether the lease has 3 to 12 months and starts in this month or later.
fn is_in_time(lease: &Lease, first: Month) -> bool
    ensures { (result ≡ true) ↔ IsInTime first lease.now }
{
    let months = lease.terms.months.number();
    LEAST_LEASE_MONTHS <= months
        && months <= MOST_LEASE_MONTHS
        && first <= lease.terms.start.day().month()
}

/// Whether each lease has 3 to 12 months and starts in the first month or later.
pub fn leases_in_time(books: &Books) -> bool
    ensures { (result ≡ true) ↔ LeasesInTime books.now.books }
{
    let first = books.first();
    books.leases().all(|lease| is_in_time(lease, first))
}

// The client and the start of each lease.
fn starts(alloc: Global, books: &Books) -> Result<Vec<(Id, EntryDay)>, AllocError>
    ensures { IfOk result (λ starts. starts.items ≡ map (λ lease. (lease.terms.client, lease.terms.start)) (fin.values books.now.books.leases)) }
{
    books
        .leases()
        .map(|lease| (lease.terms.client, lease.terms.start))
        .collect(alloc)
}

/// Whether no two leases of one client start on one day. It fails where memory runs out.
pub fn one_start_a_day(alloc: Global, books: &Books) -> Result<bool, AllocError>
    ensures { IfOk result (λ holds. (holds ≡ true) ↔ OneStartADay books.now.books) }
{
    are_distinct(alloc, starts(alloc, books)?)
}

// Whether the ending has three months or more, and fewer than its lease, if that is there.
fn ending_is_in_order(books: &Books, ending: &Ending) -> bool
    ensures { (result ≡ true) ↔ IsEarly ending.now (fin.get books.now.books.leases ending.now.lease) }
{
    let months = ending.months.number();
    match books.lease(&ending.lease) {
        Some(lease) => LEAST_LEASE_MONTHS <= months && months < lease.terms.months.number(),
        None => LEAST_LEASE_MONTHS <= months,
    }
}

/// Whether each lease that was ended early runs three months or more, and fewer than it was signed for.
pub fn endings_in_order(books: &Books) -> bool
    ensures { (result ≡ true) ↔ EndingsInOrder books.now.books }
{
    books
        .endings()
        .all(|ending| ending_is_in_order(books, ending))
}
