//! The fee rows of a month's rent run.

ghost use Rattle.std.specs.Prelude.{◌≡◌, IfOk, OnOk, map};
ghost use Rattle.std.specs.FinMap.{keys};
ghost use Rattle.dh_model.specs.Books.{with_rows};
ghost use Rattle.dh_model.specs.Runs.{dues_of_branch, fee_at, part_fee_key, part_fee_of, since_second};

use crate::by_branch::{dues_by_branch, of_branch};
use crate::sums::fee_with;
use dh_books::Books;
use dh_types::{EntryMonth, PartFee, Version};
use std::alloc::{AllocError, Global};

/// What books of this version have of the fee rows: none in the first.
pub(crate) fn of_version(version: Version, mut fees: Vec<PartFee>) -> Vec<PartFee>
    ensures { result.items ≡ since_second version fees.items }
{
    match version {
        Version::First => {
            fees.clear();
            fees
        }
        Version::Second => fees,
    }
}

/// The fee row that each branch has after the month's last batch, rising by branch; none in books of the first version. It fails where
/// memory runs out.
pub fn branch_fees(
    alloc: Global,
    books: &Books,
    month: EntryMonth,
) -> Result<Vec<PartFee>, AllocError>
    ensures { IfOk result (λ fees. fees.items ≡ since_second books.now.books.version
        (map (λ branch. part_fee_of month branch (fee_at books.now.books branch) (dues_of_branch books.now.books month branch))
        (keys books.now.books.branches))) }
{
    let dues = dues_by_branch(alloc, books, month)?;
    let mut fees = Vec::new(alloc);
    for branch in books.branch_numbers() {
        let fee = books.fee_at(branch);
        fees.push(fee_with(month, *branch, fee, of_branch(&dues, branch)))?;
    }
    Ok(of_version(books.version(), fees))
}

/// Puts the fee rows, of which the first counts where two have one key.
pub(crate) fn put_fees(books: &mut Books, mut fees: Vec<PartFee>) -> Result<(), AllocError>
    ensures { OnOk result (books.new ≡ record books.old {
      books = record books.old.books { part_fees = with_rows part_fee_key fees.items books.old.books.part_fees };
    }) }
{
    while let Some(fee) = fees.pop() {
        books.put_part_fee(fee)?;
    }
    Ok(())
}
