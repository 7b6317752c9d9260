//! Rent runs and their batches, and the version of the books.

use dh_books::Books;
use dh_leases::{branch_fees, branch_parts, posted_charges, posted_fees, posted_parts};
use dh_model::OpenRun;
use dh_rules::batches;
use dh_test_kit::{Answer, Fields, Unreadable, add_part, lines_of, version_name};
use std::alloc::Global;

/// `batches,MONTH`: how many the run takes.
pub(crate) fn batched(alloc: Global, books: &Books, fields: &mut Fields) -> Answer {
    let all = batches(alloc, books, fields.month()?)?;
    Ok(all.to_string(alloc)?)
}

/// `posted,MONTH,DONE`: how many charges there are after so many batches, and the part rows.
pub(crate) fn posted(alloc: Global, books: &Books, fields: &mut Fields) -> Answer {
    let month = fields.month()?;
    let done = u128::from(fields.number()?);
    let charges = posted_charges(alloc, books, month, done)?.len();
    let parts = posted_parts(alloc, books, month, done)?;
    let mut text = charges.to_string(alloc)?;
    add_part(&mut text, lines_of(alloc, &parts)?.as_str())?;
    Ok(text)
}

/// `posted fees,MONTH,DONE`: the fee rows after so many batches.
pub(crate) fn fees_posted(alloc: Global, books: &Books, fields: &mut Fields) -> Answer {
    let month = fields.month()?;
    let done = u128::from(fields.number()?);
    let fees = posted_fees(alloc, books, month, done)?;
    Ok(lines_of(alloc, &fees)?)
}

/// `whole fees,MONTH`: the fee rows after the last batch.
pub(crate) fn whole_fees(alloc: Global, books: &Books, fields: &mut Fields) -> Answer {
    let fees = branch_fees(alloc, books, fields.month()?)?;
    Ok(lines_of(alloc, &fees)?)
}

/// `whole parts,MONTH`: the part rows after the last batch.
pub(crate) fn whole_parts(alloc: Global, books: &Books, fields: &mut Fields) -> Answer {
    let parts = branch_parts(alloc, books, fields.month()?)?;
    Ok(lines_of(alloc, &parts)?)
}

/// `open run`: its month and how many batches are done, or `none`.
pub(crate) fn open_run(alloc: Global, books: &Books) -> Answer {
    match books.open_run() {
        Some(run) => Ok(format!(in alloc; "{} {}", run.month, run.done)?),
        None => Ok("none".to_string(alloc)?),
    }
}

/// `version`: `first` or `second`.
pub(crate) fn version(alloc: Global, books: &Books) -> Answer {
    Ok(version_name(books.version()).to_string(alloc)?)
}

/// `set open run,MONTH,DONE`
pub(crate) fn set_open_run(books: &mut Books, fields: &mut Fields) -> Result<(), Unreadable> {
    let month = fields.month()?;
    let done = u128::from(fields.number()?);
    books.set_open_run(Some(OpenRun { month, done }));
    Ok(())
}

/// `clear charges,MONTH`
pub(crate) fn clear_charges(books: &mut Books, fields: &mut Fields) -> Result<(), Unreadable> {
    books.clear_month_charges(fields.month()?);
    Ok(())
}

/// `clear parts,MONTH`
pub(crate) fn clear_parts(books: &mut Books, fields: &mut Fields) -> Result<(), Unreadable> {
    books.clear_month_parts(fields.month()?);
    Ok(())
}
