//! The books with so many batches of a month's run.

ghost use Rattle.std.specs.Prelude.{◌≡◌, ◌+◌, ◌*◌, ◌≤◌, IfOk, OnOk, Some, length, option_copied, take};
ghost use Rattle.dh_values.specs.declared.limits.TheConstants.{MOST_NUMBER};
ghost use Rattle.dh_model.specs.Runs.{batch_size, fees_of_parts, posted_charges, posted_fees, posted_parts, since_second};
ghost use Rattle.dh_model.specs.Whole.{completed, open_row, run_shown, whole, with_posted};
ghost use Rattle.dh_leases.specs.Posted.{with_month};

use crate::batch_counts::{batches, batches_for, batches_shown};
use crate::by_branch::{dues_by_branch, of_branch};
use crate::fees::{of_version, put_fees};
use crate::sums::{closed, fee_with, part_with};
use crate::whole_run::{put_charges, put_parts};
use dh_books::Books;
use dh_model::{BATCH_SIZE, OpenRun};
use dh_types::{Charge, EntryMonth, Part, PartFee, Run};
use std::alloc::{AllocError, Global};

/// The first of the charges, as many as so many batches have.
pub(crate) fn first_batches(charges: &[Charge], count: u128) -> &[Charge]
    ensures { result.now ≡ take (count * batch_size) charges.now }
{
    let most = count.saturating_mul(u128::from(BATCH_SIZE));
    let taken = most.min(charges.len() as u128) as usize;
    &charges[..taken]
}

// What books have of a month: its charges, its part rows, and their fee rows.
#[derive(Drop)]
struct MonthRows {
    charges: Vec<Charge>,
    parts: Vec<Part>,
    fees: Vec<PartFee>,
}

// The month's rows after so many batches, a fee row with each part row. The charges are no more than there are leases.
fn posted(
    alloc: Global,
    books: &Books,
    month: EntryMonth,
    done: u128,
) -> Result<MonthRows, AllocError>
    ensures charges { IfOk result (λ rows. rows.charges.items ≡ posted_charges batch_size books.now.books month done) }
    ensures parts { IfOk result (λ rows. rows.parts.items ≡ posted_parts batch_size books.now.books month done) }
    ensures fees { IfOk result (λ rows. rows.fees.items ≡ fees_of_parts batch_size books.now.books month done) }
    ensures few { IfOk result (λ rows. length rows.charges.items ≤ MOST_NUMBER + 1) }
{
    let dues = dues_by_branch(alloc, books, month)?;
    let mut charges = Vec::new(alloc);
    let mut parts = Vec::new(alloc);
    let mut fees = Vec::new(alloc);
    let mut left = done;
    for branch in books.branch_numbers() {
        let all = of_branch(&dues, branch);
        let first = first_batches(all, left);
        charges.extend_from_slice(first)?;
        if left > 0 {
            parts.push(part_with(month, *branch, first))?;
            fees.push(fee_with(month, *branch, books.fee_at(branch), first))?;
        }
        left = left.saturating_sub(batches_for(all.len() as u64));
    }
    Ok(MonthRows {
        charges,
        parts,
        fees,
    })
}

// The month's charges after so many batches, no more than there are leases.
fn charges_after(
    alloc: Global,
    books: &Books,
    month: EntryMonth,
    done: u128,
) -> Result<Vec<Charge>, AllocError>
    ensures value { IfOk result (λ charges. charges.items ≡ posted_charges batch_size books.now.books month done) }
    ensures few { IfOk result (λ charges. length charges.items ≤ MOST_NUMBER + 1) }
{
    Ok(posted(alloc, books, month, done)?.charges)
}

/// The month's charges after so many batches, branch by branch and each branch's by lease. It fails where memory runs out.
pub fn posted_charges(
    alloc: Global,
    books: &Books,
    month: EntryMonth,
    done: u128,
) -> Result<Vec<Charge>, AllocError>
    ensures { IfOk result (λ charges. charges.items ≡ posted_charges batch_size books.now.books month done) }
{
    charges_after(alloc, books, month, done)
}

/// The month's part rows after so many batches, rising by branch. It fails where memory runs out.
pub fn posted_parts(
    alloc: Global,
    books: &Books,
    month: EntryMonth,
    done: u128,
) -> Result<Vec<Part>, AllocError>
    ensures { IfOk result (λ parts. parts.items ≡ posted_parts batch_size books.now.books month done) }
{
    Ok(posted(alloc, books, month, done)?.parts)
}

/// The month's fee rows after so many batches, rising by branch; none in books of the first version. It fails where memory runs out.
pub fn posted_fees(
    alloc: Global,
    books: &Books,
    month: EntryMonth,
    done: u128,
) -> Result<Vec<PartFee>, AllocError>
    ensures { IfOk result (λ fees. fees.items ≡ posted_fees batch_size books.now.books month done) }
{
    let rows = posted(alloc, books, month, done)?;
    Ok(of_version(books.version(), rows.fees))
}

// Puts these in the place of what the books have of the month.
fn put_posted(books: &mut Books, month: EntryMonth, rows: MonthRows) -> Result<(), AllocError>
    ensures { OnOk result (books.new ≡ record books.old {
      books = with_month books.old.books month rows.charges.items rows.parts.items
          (since_second books.old.books.version rows.fees.items);
    }) }
{
    books.clear_month_charges(month);
    put_charges(books, rows.charges)?;
    books.clear_month_parts(month);
    put_parts(books, rows.parts)?;
    books.clear_month_fees(month);
    let fees = of_version(books.version(), rows.fees);
    put_fees(books, fees)
}

/// The books with so many batches of the month in the place of what they have of it.
pub fn with_posted(
    alloc: Global,
    mut books: Books,
    month: EntryMonth,
    done: u128,
) -> Result<Books, AllocError>
    ensures { IfOk result (λ b. b ≡ record books { books = with_posted batch_size books.books month done }) }
{
    let rows = posted(alloc, &books, month, done)?;
    put_posted(&mut books, month, rows)?;
    Ok(books)
}

/// The first run that is open, if one is.
pub fn open_row(books: &Books) -> Option<&Run>
    ensures { option_copied result ≡ open_row books.now.books }
{
    books.runs().find(|run| !run.is_closed)
}

/// The open run, as the run rows and the part rows show it.
pub fn run_shown(books: &Books) -> Option<OpenRun>
    ensures { result ≡ run_shown batch_size books.now.books }
{
    let run = open_row(books)?;
    Some(OpenRun {
        month: run.month,
        done: batches_shown(books, run.month),
    })
}

// The books with the run made to its end.
fn completed(alloc: Global, books: Books, run: Run) -> Result<Books, AllocError>
    ensures { IfOk result (λ b. b ≡ record books { books = completed batch_size books.books (Some run) }) }
{
    let all = batches(alloc, &books, run.month)?;
    let charges = charges_after(alloc, &books, run.month, all)?;
    let mut after = with_posted(alloc, books, run.month, all)?;
    after.put_run(closed(run, &charges))?;
    Ok(after)
}

/// The books with the run that their rows show as open made to its end.
pub fn whole(alloc: Global, books: Books) -> Result<Books, AllocError>
    ensures { IfOk result (λ b. b ≡ record books { books = whole batch_size books.books }) }
{
    match open_row(&books).copied() {
        Some(run) => completed(alloc, books, run),
        None => Ok(books),
    }
}
