//! Months whose run is under way.

ghost use Rattle.std.specs.Prelude.{◌≡◌, ◌↔◌, ◌≤◌, true, false, IfOk};
ghost use Rattle.dh_model.specs.Rules.{ArePosted, Each, HaveTheSame, MonthIsOpen, charges_in, parts_in};
ghost use Rattle.dh_model.specs.Runs.{batch_size, batches, posted_charges, posted_parts};

use crate::same_lists::have_the_same;
use dh_books::Books;
use dh_leases::{batches, batches_shown, posted_charges, posted_parts};
use dh_types::{Charge, EntryMonth, Part, Pence, Run};
use std::alloc::{AllocError, Global};

// The month's charges in the books.
fn charges_in(alloc: Global, books: &Books, month: EntryMonth) -> Result<Vec<Charge>, AllocError>
    ensures { IfOk result (λ charges. charges.items ≡ charges_in books.now.books month) }
{
    books
        .charges()
        .copied()
        .filter(|charge| charge.month == month)
        .collect(alloc)
}

// The month's part rows in the books.
fn parts_in(alloc: Global, books: &Books, month: EntryMonth) -> Result<Vec<Part>, AllocError>
    ensures { IfOk result (λ parts. parts.items ≡ parts_in books.now.books month) }
{
    books
        .parts()
        .copied()
        .filter(|part| part.month == month)
        .collect(alloc)
}

// Whether the month's charges are those of so many batches.
fn charges_are_posted(
    alloc: Global,
    books: &Books,
    month: EntryMonth,
    done: u128,
) -> Result<bool, AllocError>
    ensures { IfOk result (λ same. (same ≡ true) ↔ HaveTheSame (charges_in books.now.books month) (posted_charges batch_size books.now.books month done)) }
{
    let posted = posted_charges(alloc, books, month, done)?;
    have_the_same(alloc, charges_in(alloc, books, month)?, posted)
}

// Whether the month's part rows are those of so many batches.
fn parts_are_posted(
    alloc: Global,
    books: &Books,
    month: EntryMonth,
    done: u128,
) -> Result<bool, AllocError>
    ensures { IfOk result (λ same. (same ≡ true) ↔ HaveTheSame (parts_in books.now.books month) (posted_parts batch_size books.now.books month done)) }
{
    let posted = posted_parts(alloc, books, month, done)?;
    have_the_same(alloc, parts_in(alloc, books, month)?, posted)
}

// Whether the month has so many batches.
fn has_batches(
    alloc: Global,
    books: &Books,
    month: EntryMonth,
    done: u128,
) -> Result<bool, AllocError>
    ensures { IfOk result (λ few. (few ≡ true) ↔ done ≤ batches batch_size books.now.books month) }
{
    Ok(done <= batches(alloc, books, month)?)
}

// Whether so many batches of the month are in the books, and nothing else of it.
fn are_posted(
    alloc: Global,
    books: &Books,
    month: EntryMonth,
    done: u128,
) -> Result<bool, AllocError>
    ensures { IfOk result (λ holds. (holds ≡ true) ↔ ArePosted books.now.books batch_size month done) }
{
    Ok(
        has_batches(alloc, books, month, done)?
            && parts_are_posted(alloc, books, month, done)?
            && charges_are_posted(alloc, books, month, done)?,
    )
}

// Whether some number of batches of the open run is posted and nothing summed up yet.
fn open_month_is_in_order(alloc: Global, books: &Books, run: &Run) -> Result<bool, AllocError>
    ensures { IfOk result (λ holds. (holds ≡ true) ↔ MonthIsOpen books.now.books batch_size run.now) }
{
    if run.count != 0 || run.total != Pence::of_pence(0) {
        return Ok(false);
    }
    let shown = batches_shown(books, run.month);
    are_posted(alloc, books, run.month, shown)
}

/// Whether of each open month some number of batches is posted and nothing summed up yet. It fails where memory runs out.
pub fn open_months_are_in_order(alloc: Global, books: &Books) -> Result<bool, AllocError>
    ensures { IfOk result (λ holds. (holds ≡ true) ↔ Each books.now.books.runs (λ run. run.is_closed ≡ false → MonthIsOpen books.now.books batch_size run)) }
{
    for run in books.runs() {
        if !run.is_closed && !open_month_is_in_order(alloc, books, run)? {
            return Ok(false);
        }
    }
    Ok(true)
}
