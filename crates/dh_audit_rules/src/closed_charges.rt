//! Whether the charges of closed months are their dues.

ghost use Rattle.std.specs.Prelude.{◌≡◌, ◌↔◌, true, map, IfOk};
ghost use Rattle.dh_model.specs.Rules.{HaveTheSame};
ghost use Rattle.dh_audit_rules.specs.declared.closed_dues.Due.{Due};
ghost use Rattle.dh_audit_rules.specs.ClosedMonths.{charges_of_months, dues_of_months};

use crate::closed_dues::Due;
use crate::same_lists::have_the_same;
use dh_books::Books;
use dh_types::{Charge, EntryMonth};
use std::alloc::{AllocError, Global};
use std::collections::BTreeSet;

// The charges in the books that are of one of these months.
fn charges_of_months(
    alloc: Global,
    books: &Books,
    months: &BTreeSet<EntryMonth>,
) -> Result<Vec<Charge>, AllocError>
    ensures { IfOk result (λ charges. charges.items ≡ charges_of_months books.now.books months.now) }
{
    books
        .charges()
        .copied()
        .filter(|charge| months.contains(&charge.month))
        .collect(alloc)
}

// What falls due in one of these months.
fn dues_of_months(
    alloc: Global,
    dues: &[Due],
    months: &BTreeSet<EntryMonth>,
) -> Result<Vec<Charge>, AllocError>
    ensures { IfOk result (λ charges. charges.items ≡ dues_of_months dues.now months.now) }
{
    dues.iter()
        .map(|due| due.charge)
        .filter(|charge| months.contains(&charge.month))
        .collect(alloc)
}

/// Whether the charges of these months are what falls due in them. It fails where memory runs out.
pub(crate) fn charges_are_dues(
    alloc: Global,
    books: &Books,
    dues: &[Due],
    months: &BTreeSet<EntryMonth>,
) -> Result<bool, AllocError>
    ensures { IfOk result (λ same. (same ≡ true) ↔ HaveTheSame (charges_of_months books.now.books months.now) (dues_of_months dues.now months.now)) }
{
    let charged = charges_of_months(alloc, books, months)?;
    have_the_same(alloc, charged, dues_of_months(alloc, dues, months)?)
}
