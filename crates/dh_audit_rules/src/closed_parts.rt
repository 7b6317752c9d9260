//! Whether the part rows of closed months sum up their branches' dues.

ghost use Rattle.std.specs.Prelude.{◌≡◌, ◌↔◌, true, IfOk};
ghost use Rattle.std.specs.Ordering.{nat_cmp};
ghost use Rattle.dh_model.specs.Books.{pair_cmp, text_cmp};
ghost use Rattle.dh_model.specs.Rules.{Each};
ghost use Rattle.dh_audit_rules.specs.ClosedMonths.{DuesHaveParts, HasPart, IsOf, IsSumIfOf, charges_of_branch, sum_at, sum_of, sum_of_part};

use crate::closed_dues::Due;
use crate::closed_sums::{Sum, sum_at, sums_of_branches};
use dh_books::Books;
use dh_types::{EntryMonth, Id, Part};
use std::alloc::{AllocError, Global};
use std::collections::{BTreeMap, BTreeSet};

// Whether the part is the sum of its month and branch.
fn part_is_sum(part: &Part, sums: &BTreeMap<(EntryMonth, Id), Sum>) -> bool
    ensures { (result ≡ true) ↔ sum_of_part part.now ≡ sum_at (pair_cmp nat_cmp text_cmp) sums.now (part.now.month, part.now.branch) }
{
    Sum::of_part(part) == sum_at(sums, &part.key())
}

// Whether the part is the sum of its month and branch, if its month is one of these.
fn is_sum_if_of(
    part: &Part,
    months: &BTreeSet<EntryMonth>,
    sums: &BTreeMap<(EntryMonth, Id), Sum>,
) -> bool
    ensures { (result ≡ true) ↔ IsSumIfOf months.now (sum_at (pair_cmp nat_cmp text_cmp) sums.now) part.now }
{
    !months.contains(&part.month) || part_is_sum(part, sums)
}

/// Whether each part of these months sums up what falls due in its month at its branch. It fails where memory runs out.
pub(crate) fn parts_are_sums(
    alloc: Global,
    books: &Books,
    dues: &[Due],
    months: &BTreeSet<EntryMonth>,
) -> Result<bool, AllocError>
    ensures { IfOk result (λ holds. (holds ≡ true) ↔ Each books.now.books.parts (IsSumIfOf months.now (λ key. sum_of (charges_of_branch dues.now key)))) }
{
    let sums = sums_of_branches(alloc, dues)?;
    Ok(books.parts().all(|part| is_sum_if_of(part, months, &sums)))
}

// Whether the branch of the due, where there is such a branch, has a part of the due's month.
fn has_part(books: &Books, due: &Due) -> bool
    ensures { (result ≡ true) ↔ HasPart books.now.books due.now }
{
    let Some(branch) = due.branch else {
        return true;
    };
    books.branch(&branch).is_none() || books.part(&(due.charge.month, branch)).is_some()
}

// Whether the due has its part, if its month is one of these.
fn has_part_if_of(books: &Books, due: &Due, months: &BTreeSet<EntryMonth>) -> bool
    ensures { (result ≡ true) ↔ (IsOf months.now due.now.charge.month → HasPart books.now.books due.now) }
{
    !months.contains(&due.charge.month) || has_part(books, due)
}

/// Whether each of the dues in these months has its part.
pub(crate) fn dues_have_parts(books: &Books, dues: &[Due], months: &BTreeSet<EntryMonth>) -> bool
    ensures { (result ≡ true) ↔ DuesHaveParts books.now.books dues.now months.now }
{
    dues.iter().all(|due| has_part_if_of(books, due, months))
}
