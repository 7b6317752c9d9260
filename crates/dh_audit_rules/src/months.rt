//! Months: what is charged and summed up in them.

ghost use Rattle.std.specs.Prelude.{◌≡◌, ◌↔◌, true, IfOk};
ghost use Rattle.dh_model.specs.Rules.{Each, IsThere, MonthsInOrder};
ghost use Rattle.dh_model.specs.Runs.{batch_size};
ghost use Rattle.dh_audit_rules.specs.Months.{RowsHaveRuns};

use crate::{closed_months_are_in_order, open_months_are_in_order};
use dh_books::Books;
use std::alloc::{AllocError, Global};

// Whether each charge and each part row is of a month that has a run.
fn rows_have_runs(books: &Books) -> bool
    ensures { (result ≡ true) ↔ RowsHaveRuns books.now.books }
{
    books
        .charges()
        .all(|charge| books.run(&charge.month).is_some())
        && books.parts().all(|part| books.run(&part.month).is_some())
}

/// Whether each month is charged as its run says, and no month without a run is charged or summed up. It fails where
/// memory runs out.
pub fn months_in_order(alloc: Global, books: &Books) -> Result<bool, AllocError>
    ensures { IfOk result (λ holds. (holds ≡ true) ↔ MonthsInOrder books.now.books batch_size) }
{
    if !rows_have_runs(books) {
        return Ok(false);
    }
    Ok(closed_months_are_in_order(alloc, books)? && open_months_are_in_order(alloc, books)?)
}
