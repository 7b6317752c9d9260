//! What each branch has of a rent run that is done.

ghost use Rattle.std.specs.Prelude.{◌≡◌, ◌≤◌, IfOk, length, map};
ghost use Rattle.std.specs.FinMap.{keys, values};
ghost use Rattle.dh_values.specs.declared.limits.TheConstants.{MOST_NUMBER};
ghost use Rattle.dh_model.specs.BatchLaws.{AreNumbered};
ghost use Rattle.dh_model.specs.Runs.{dues_of_branch, part_of};

use crate::by_branch::{dues_by_branch, of_branch};
use crate::sums::part_with;
use dh_books::Books;
use dh_types::{EntryMonth, Part};
use std::alloc::{AllocError, Global};

/// The part row that each branch has after the month's last batch, rising by branch. It fails where memory runs out.
pub fn branch_parts(
    alloc: Global,
    books: &Books,
    month: EntryMonth,
) -> Result<Vec<Part>, AllocError>
    ensures value { IfOk result (λ parts.
        parts.items ≡ map (λ branch. part_of month branch (dues_of_branch books.now.books month branch)) (keys books.now.books.branches)) }
    ensures numbered { IfOk result (λ _. AreNumbered books.now.books) }
    ensures few { IfOk result (λ _. length (values books.now.books.leases) ≤ MOST_NUMBER) }
{
    let dues = dues_by_branch(alloc, books, month)?;
    let mut parts = Vec::new(alloc);
    for branch in books.branch_numbers() {
        parts.push(part_with(month, *branch, of_branch(&dues, branch)))?;
    }
    Ok(parts)
}
