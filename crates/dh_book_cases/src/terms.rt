//! How long leases run, what they cover, and what falls due on them.

use dh_books::Books;
use dh_leases::{covers, due_in, dues_by_branch, end_of, of_branch, overlap};
use dh_rules::dues;
use dh_test_kit::{Answer, Fields, Unreadable, lines_of};
use dh_types::Lease;
use std::alloc::Global;

fn lease<'a>(books: &'a Books, fields: &mut Fields) -> Result<&'a Lease, Unreadable> {
    books.lease(&fields.lease_no()?).ok_or(Unreadable)
}

fn yes_or_no(alloc: Global, is_so: bool) -> Answer {
    let text = if is_so { "yes" } else { "no" };
    Ok(text.to_string(alloc)?)
}

/// `length,LEASE`: for how many months it runs.
pub(crate) fn length(alloc: Global, books: &Books, fields: &mut Fields) -> Answer {
    let lease = lease(books, fields)?;
    Ok(books.length_of(lease).to_string(alloc)?)
}

/// `ends,LEASE`: the day on which it no longer covers its property.
pub(crate) fn end(alloc: Global, books: &Books, fields: &mut Fields) -> Answer {
    let running = books.running(lease(books, fields)?);
    Ok(end_of(&running).to_string(alloc)?)
}

/// `covers,LEASE,DAY`
pub(crate) fn covered(alloc: Global, books: &Books, fields: &mut Fields) -> Answer {
    let lease = lease(books, fields)?;
    yes_or_no(alloc, covers(&books.running(lease), fields.day()?.day()))
}

/// `overlap,LEASE,LEASE`
pub(crate) fn overlapping(alloc: Global, books: &Books, fields: &mut Fields) -> Answer {
    let first = lease(books, fields)?;
    let second = lease(books, fields)?;
    yes_or_no(
        alloc,
        overlap(&books.running(first), &books.running(second)),
    )
}

/// `due,LEASE,MONTH`: the day and the amount, or `none`.
pub(crate) fn due(alloc: Global, books: &Books, fields: &mut Fields) -> Answer {
    let lease = lease(books, fields)?;
    match due_in(books, lease, fields.any_month()?) {
        Some(charge) => Ok(format!(in alloc; "{} {}", charge.day, charge.amount)?),
        None => Ok("none".to_string(alloc)?),
    }
}

/// `dues,MONTH`: the charges, lease by lease.
pub(crate) fn dues_of(alloc: Global, books: &Books, fields: &mut Fields) -> Answer {
    let charges = dues(alloc, books, fields.any_month()?)?;
    Ok(lines_of(alloc, &charges)?)
}

/// `branch dues,BRANCH,MONTH`: the charges of the branch, lease by lease.
pub(crate) fn branch_dues(alloc: Global, books: &Books, fields: &mut Fields) -> Answer {
    let branch = fields.id()?;
    let charges = dues_by_branch(alloc, books, fields.month()?)?;
    Ok(lines_of(alloc, of_branch(&charges, &branch))?)
}
