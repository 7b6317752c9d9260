//! A month's rent run, made in one step.

ghost use Rattle.std.specs.Prelude.{◌≡◌, IfOk, OnOk};
ghost use Rattle.dh_model.specs.Books.{with_rows};
ghost use Rattle.dh_model.specs.Runs.{batch_size, charge_key, part_key, ran};

use crate::dues;
use crate::fees::{branch_fees, put_fees};
use crate::parts::branch_parts;
use crate::sums::closed;
use dh_books::Books;
use dh_types::{Charge, EntryMonth, Key, Part, Pence, Run};
use std::alloc::{AllocError, Global};

// Puts the charges, of which the first counts where two have one key.
pub(crate) fn put_charges(books: &mut Books, mut charges: Vec<Charge>) -> Result<(), AllocError>
    ensures { OnOk result (books.new ≡ record books.old {
      books = record books.old.books { charges = with_rows charge_key charges.items books.old.books.charges };
    }) }
{
    while let Some(charge) = charges.pop() {
        books.put_charge(charge)?;
    }
    Ok(())
}

// Puts the parts, of which the first counts where two have one key.
pub(crate) fn put_parts(books: &mut Books, mut parts: Vec<Part>) -> Result<(), AllocError>
    ensures { OnOk result (books.new ≡ record books.old {
      books = record books.old.books { parts = with_rows part_key parts.items books.old.books.parts };
    }) }
{
    while let Some(part) = parts.pop() {
        books.put_part(part)?;
    }
    Ok(())
}

/// The books with the run of the next month made in one step: its dues are charged, each branch has its part row and,
/// in books of the second version, its fee row, the run is closed with its count and total, and the next month moves on.
pub fn with_run(
    alloc: Global,
    mut books: Books,
    month: EntryMonth,
    key: Key,
) -> Result<Books, AllocError>
    requires { month ≡ books.books.next }
    ensures { IfOk result (λ b. b ≡ record books { books = ran batch_size books.books key }) }
{
    let charges = dues(alloc, &books, month.month())?;
    let parts = branch_parts(alloc, &books, month)?;
    let fees = branch_fees(alloc, &books, month)?;
    let opened = Run {
        month,
        key,
        count: 0,
        total: Pence::of_pence(0),
        is_closed: false,
    };
    let run = closed(opened, &charges);
    put_charges(&mut books, charges)?;
    put_parts(&mut books, parts)?;
    put_fees(&mut books, fees)?;
    books.put_run(run)?;
    books.set_next(month.month().next().unwrap());
    Ok(books)
}
