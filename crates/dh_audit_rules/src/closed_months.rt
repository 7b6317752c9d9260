//! Months whose run is closed.

ghost use Rattle.std.specs.Prelude.{◌≡◌, ◌↔◌, ℕ, true, IfOk};
ghost use Rattle.std.specs.BTreeSet as set;
ghost use Rattle.std.specs.List.{IsAmong};
ghost use Rattle.std.specs.Ordering.{nat_cmp};
ghost use Rattle.dh_model.specs.Rules.{Each, MonthIsClosed};
ghost use Rattle.dh_audit_rules.specs.ClosedMonths.{RunIsSum, RunsAreSums, charges_of_month, closed_months, sum_at, sum_of};

use crate::closed_charges::charges_are_dues;
use crate::closed_dues::{Due, all_dues};
use crate::closed_parts::{dues_have_parts, parts_are_sums};
use crate::closed_sums::{Sum, sum_at, sums_of_months};
use dh_books::Books;
use dh_types::{EntryMonth, Run};
use std::alloc::{AllocError, Global};
use std::collections::{BTreeMap, BTreeSet};

// The months whose run is closed.
fn closed_months(alloc: Global, books: &Books) -> Result<BTreeSet<EntryMonth>, AllocError>
    ensures { IfOk result (λ months. (month : ℕ) → (set.contains nat_cmp months month ≡ true) ↔ IsAmong (closed_months books.now.books) month) }
{
    books
        .runs()
        .filter(|run| run.is_closed)
        .map(|run| run.month)
        .collect(alloc)
}

// Whether the run, if it is closed, is the sum of its month.
fn run_is_sum(run: &Run, sums: &BTreeMap<EntryMonth, Sum>) -> bool
    ensures { (result ≡ true) ↔ (run.now.is_closed ≡ true → RunIsSum run.now (sum_at nat_cmp sums.now run.now.month)) }
{
    let sum = sum_at(sums, &run.month);
    !run.is_closed
        || u64::from(run.count) == sum.count && u128::from(run.total.pence()) == sum.total
}

// Whether each closed run sums up what falls due in its month.
fn runs_are_sums(alloc: Global, books: &Books, dues: &[Due]) -> Result<bool, AllocError>
    ensures { IfOk result (λ holds. (holds ≡ true) ↔ RunsAreSums books.now.books (λ month. sum_of (charges_of_month dues.now month))) }
{
    let sums = sums_of_months(alloc, dues)?;
    Ok(books.runs().all(|run| run_is_sum(run, &sums)))
}

/// Whether each closed month's charges are its dues, and its part rows and its run sum them up. It fails where memory runs
/// out.
pub fn closed_months_are_in_order(alloc: Global, books: &Books) -> Result<bool, AllocError>
    ensures { IfOk result (λ holds. (holds ≡ true) ↔ Each books.now.books.runs (λ run. run.is_closed ≡ true → MonthIsClosed books.now.books run)) }
{
    let months = closed_months(alloc, books)?;
    let all = all_dues(alloc, books)?;
    let dues: &[Due] = &all;
    if !dues_have_parts(books, dues, &months) {
        return Ok(false);
    }
    if !runs_are_sums(alloc, books, dues)? {
        return Ok(false);
    }
    if !parts_are_sums(alloc, books, dues, &months)? {
        return Ok(false);
    }
    charges_are_dues(alloc, books, dues, &months)
}
