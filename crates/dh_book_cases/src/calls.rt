//! The calls that take books and give them back. Each leaves books without a row where memory runs out.

ghost use Rattle.std.specs.Prelude.{◌≡◌};

use dh_books::Books;
use dh_leases::{whole, with_posted, with_run};
use dh_rules::{
    Reach, answered, interrupted_done, interrupted_undone, recovered, recovery_interrupted, step,
};
use dh_test_kit::{Row, Unreadable, january};
use dh_types::{Command, EntryMonth, Key, Version};
use std::alloc::{AllocError, Global};
use std::mem;

/// Books of this version that begin with 2025-01.
pub fn empty(alloc: Global, version: Version) -> Books {
    Books::new(alloc, version, january(), january())
}

fn take(alloc: Global, books: &mut Books) -> Books
    ensures { result ≡ books.old }
{
    let left = empty(alloc, books.version());
    mem::replace(books, left)
}

// The one place where books are dropped for others.
pub(crate) fn put_back(books: &mut Books, changed: Books) {
    *books = changed;
}

/// The machine's step: the text of its reply.
pub(crate) fn tell(
    alloc: Global,
    books: &mut Books,
    command: &Command,
) -> Result<String, AllocError> {
    let stepped = step(alloc, take(alloc, books), command)?;
    put_back(books, stepped.books);
    stepped.reply.to_string(alloc)
}

/// The player's answered command: the text of its reply.
pub(crate) fn say(
    alloc: Global,
    tables: &mut Books,
    command: &Command,
) -> Result<String, AllocError> {
    let told = answered(alloc, take(alloc, tables), command)?;
    put_back(tables, told.tables);
    told.reply.to_string(alloc)
}

/// The command cut before it changed the books.
pub(crate) fn cut_before(
    alloc: Global,
    tables: &mut Books,
    command: &Command,
    reach: Reach,
) -> Result<(), AllocError> {
    let changed = interrupted_undone(alloc, take(alloc, tables), command, reach)?;
    put_back(tables, changed);
    Ok(())
}

/// The command cut and carried out.
pub(crate) fn cut_after(
    alloc: Global,
    tables: &mut Books,
    command: &Command,
    standing: Option<u128>,
) -> Result<(), AllocError> {
    let changed = interrupted_done(alloc, take(alloc, tables), command, standing)?;
    put_back(tables, changed);
    Ok(())
}

/// A recovery that is interrupted.
pub(crate) fn interrupt_recovery(
    alloc: Global,
    tables: &mut Books,
    reach: Reach,
) -> Result<(), AllocError> {
    let changed = recovery_interrupted(alloc, take(alloc, tables), reach)?;
    put_back(tables, changed);
    Ok(())
}

/// A recovery that is finished.
pub(crate) fn end_recovery(alloc: Global, tables: &mut Books) -> Result<(), AllocError> {
    let changed = recovered(alloc, take(alloc, tables))?;
    put_back(tables, changed);
    Ok(())
}

/// So many batches of the month in the place of what the books have of it.
pub(crate) fn post(
    alloc: Global,
    books: &mut Books,
    month: EntryMonth,
    done: u32,
) -> Result<(), AllocError> {
    let changed = with_posted(alloc, take(alloc, books), month, u128::from(done))?;
    put_back(books, changed);
    Ok(())
}

/// The run that the rows show as open, made to its end.
pub(crate) fn make_whole(alloc: Global, books: &mut Books) -> Result<(), AllocError> {
    let changed = whole(alloc, take(alloc, books))?;
    put_back(books, changed);
    Ok(())
}

/// The run of the next month, made in one step.
pub(crate) fn make_run(alloc: Global, books: &mut Books, key: Key) -> Result<(), Unreadable> {
    let Some(month) = EntryMonth::of(books.next()) else {
        return Err(Unreadable);
    };
    let before = take(alloc, books);
    let changed = with_run(alloc, before, month, key)?;
    put_back(books, changed);
    Ok(())
}

/// Puts the row under its key, unasked.
pub(crate) fn put(books: &mut Books, row: Row) -> Result<(), AllocError> {
    match row {
        Row::Branch(it) => books.put_branch(it),
        Row::Staff(it) => books.put_member(it),
        Row::Owner(it) => books.put_owner(it),
        Row::Property(it) => books.put_property(it),
        Row::Client(it) => books.put_client(it),
        Row::Registration(it) => books.put_registration(it),
        Row::Viewing(it) => books.put_viewing(it),
        Row::Inspection(it) => books.put_inspection(it),
        Row::Lease(it) => books.put_lease(it),
        Row::Ending(it) => books.put_ending(it),
        Row::Charge(it) => books.put_charge(it),
        Row::Receipt(it) => books.put_receipt(it),
        Row::Run(it) => books.put_run(it),
        Row::Part(it) => books.put_part(it),
        Row::BranchFee(it) => books.put_branch_fee(it),
        Row::PartFee(it) => books.put_part_fee(it),
        Row::Next(month) => {
            books.set_next(month);
            Ok(())
        }
    }
}
