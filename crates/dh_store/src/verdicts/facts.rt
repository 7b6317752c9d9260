//! The facts on which a command is decided.

ghost use Rattle.std.specs.Prelude.{◌≡◌, IfOk, OnOk};
ghost use Rattle.std.specs.FinMap as fin;
ghost use Rattle.sqlite.specs.State.{HasCleanDisk};
ghost use Rattle.sqlite.specs.Held.{state};
ghost use Rattle.dh_laws.specs.Looks.{Counts, month_open};
ghost use Rattle.dh_schema.specs.Store.{IsReady, tables};
ghost use Rattle.dh_schema.specs.Months.{IsReadyIn, IsReadyOf};
ghost use Rattle.dh_schema.specs.Reading.{OnlyReads};
ghost use Rattle.dh_store.specs.Gathered.{Gathers, bare};

use crate::verdicts::rows::{
    at_end, at_fee, at_inspection, at_lease, at_property, at_receipt, at_register, at_run,
    at_staff, at_viewing, managed,
};
use dh_books::Books;
use dh_rows::Meta;
use dh_schema::{StoreFault, find_open_run, look};
use dh_tables::{
    BranchNumbered, ClientNumbered, OwnerNumbered, PropertyNumbered, ViewingOf, last_receipt,
};
use dh_types::{Command, EntryMonth, Version};
use sqlite::{Alter, Connection};
use std::alloc::Global;

/// The month of the open run.
pub(crate) fn open_month<S: Alter>(
    alloc: Global,
    conn: &mut Connection<S>,
    months: Meta,
) -> Result<Option<EntryMonth>, StoreFault>
    requires { HasCleanDisk (state S.Store conn.old) → IsReadyIn months (state S.Store conn.old) }
    ensures month { HasCleanDisk (state S.Store conn.new) → IfOk result (λ month. month ≡ month_open (tables (state S.Store conn.old)).open_run) }
    ensures reads { OnlyReads (state S.Store conn.old) (state S.Store conn.new) result }
{
    let run = find_open_run(alloc, conn, months)?;
    Ok(run.map(|run| run.month))
}

// How many receipts there are: the last one's number.
fn receipt_count<S: Alter>(alloc: Global, conn: &mut Connection<S>) -> Result<usize, StoreFault>
    requires { HasCleanDisk (state S.Store conn.old) → IsReady (state S.Store conn.old) }
    ensures counted { HasCleanDisk (state S.Store conn.new) → IfOk result (λ count. count ≡ fin.len (tables (state S.Store conn.old)).books.receipts) }
    ensures reads { OnlyReads (state S.Store conn.old) (state S.Store conn.new) result }
{
    match last_receipt(alloc, conn) {
        Ok(Some(last)) => Ok(last.number.number() as usize),
        Ok(None) => Ok(0),
        Err(error) => Err(error.into()),
    }
}

/// How many receipts there are, for a receipt alone.
pub(crate) fn count_for<S: Alter>(
    alloc: Global,
    conn: &mut Connection<S>,
    command: &Command,
) -> Result<usize, StoreFault>
    requires { HasCleanDisk (state S.Store conn.old) → IsReady (state S.Store conn.old) }
    ensures counted { HasCleanDisk (state S.Store conn.new)
        → IfOk result (λ count. Counts command.now (tables (state S.Store conn.old)).books.receipts count) }
    ensures reads { OnlyReads (state S.Store conn.old) (state S.Store conn.new) result }
{
    match command {
        Command::Receipt(_) => receipt_count(alloc, conn),
        _ => Ok(0),
    }
}

/// The rows that the command looks at, into books that have the version and the months alone.
pub(crate) fn gather_rows<S: Alter>(
    alloc: Global,
    conn: &mut Connection<S>,
    version: Version,
    command: &Command,
    books: &mut Books,
) -> Result<(), StoreFault>
    requires { HasCleanDisk (state S.Store conn.old) → IsReadyOf version (state S.Store conn.old) }
    ensures gathered { Gathers command.now result (state S.Store conn.old) books.old (state S.Store conn.new) books.new }
    ensures reads { OnlyReads (state S.Store conn.old) (state S.Store conn.new) result }
{
    match command {
        Command::Branch(it) => look(alloc, conn, &BranchNumbered { number: it.number }, books),
        Command::Fee(fee) => at_fee(alloc, conn, version, fee, books),
        Command::Staff(member) => at_staff(alloc, conn, member, books),
        Command::Owner(it) => look(alloc, conn, &OwnerNumbered { number: it.number }, books),
        Command::Property(property) => at_property(alloc, conn, property, books),
        Command::Assign(it) => managed(alloc, conn, it.property, it.staff, books),
        Command::Rent(it) => {
            let number = it.property;
            look(alloc, conn, &PropertyNumbered { number }, books)
        }
        Command::Client(it) => look(alloc, conn, &ClientNumbered { number: it.number }, books),
        Command::Register(registration) => at_register(alloc, conn, registration, books),
        Command::Viewing(viewing) => at_viewing(alloc, conn, viewing, books),
        Command::Comment(it) => {
            let (client, property) = (it.client, it.property);
            look(alloc, conn, &ViewingOf { client, property }, books)
        }
        Command::Inspection(inspection) => at_inspection(alloc, conn, inspection, books),
        Command::Lease(terms) => at_lease(alloc, conn, version, terms, books),
        Command::End(ending) => at_end(alloc, conn, version, ending, books),
        Command::Receipt(order) => at_receipt(alloc, conn, order, books),
        Command::Run(order) | Command::Open(order) => at_run(alloc, conn, order, books),
        Command::Post(_) => Ok(()),
    }
}
