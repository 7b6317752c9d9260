//! Any command.

ghost use Rattle.std.specs.Prelude.{◌≡◌, if◌then◌else◌, IfOk, None, Option};
ghost use Rattle.dh_model.specs.Books.{Books as Rows};
ghost use Rattle.dh_model.specs.declared.open_run.OpenRun.{OpenRun as Run};
ghost use Rattle.dh_model.specs.MachineLaws.{is_frozen};
ghost use Rattle.dh_model.specs.Verdicts.{verdict_among, verdict_on};
ghost use Rattle.dh_laws.specs.InOrder.{AreKeyed};
ghost use Rattle.dh_laws.specs.Looks.{IsCutOf};
ghost use Rattle.dh_answers.specs.Seen.{facts_of, put_off_by, run_of};

use crate::clients::{
    decide_client, decide_comment, decide_inspection, decide_register, decide_viewing,
};
use crate::ends::decide_end;
use crate::leases::decide_lease;
use crate::offices::{decide_branch, decide_fee, decide_owner, decide_staff};
use crate::properties::{decide_assign, decide_property, decide_rent};
use crate::receipts::{decide_receipt, decide_run};
use dh_books::Books;
use dh_model::{Change, Verdict};
use dh_types::{Command, EntryMonth, Refusal};
use std::alloc::{AllocError, Global};

/// Some rows, how many receipts there are in all, and the month of the open run. What `books` has of an open run has no say.
#[derive(Drop)]
pub struct Facts {
    pub books: Books,
    pub receipts: usize,
    pub open_month: Option<EntryMonth>,
}

/// The refusal of a command that the open run of this month puts off: branches, fees, leases and their ends, receipts and runs are refused.
pub fn open_refusal(open_month: &Option<EntryMonth>, command: &Command) -> Option<Refusal>
    ensures { result ≡ put_off_by open_month.now command.now }
{
    match command {
        Command::Branch(_)
        | Command::Fee(_)
        | Command::Lease(_)
        | Command::End(_)
        | Command::Receipt(_)
        | Command::Run(_)
        | Command::Open(_) => open_month.map(|month| Refusal::RunOpen(month.month())),
        _ => None,
    }
}

// What the books say of the command, which the open run of this month does not put off, where there are so many receipts.
fn decide_passed(
    alloc: Global,
    books: &Books,
    receipts: usize,
    open_month: Option<EntryMonth>,
    command: &Command,
) -> Result<Verdict, AllocError>
    ensures { IfOk result (λ v. v ≡ verdict_among books.now.books receipts (run_of (if is_frozen command.now then None else open_month)) command.now) }
{
    match command {
        Command::Post(_) => match open_month {
            Some(_) => Ok(Verdict::Change(Change::Post)),
            None => Ok(Verdict::Refused(Refusal::NoRun)),
        },
        Command::Branch(branch) => decide_branch(alloc, books, branch),
        Command::Fee(fee) => Ok(decide_fee(books, fee)),
        Command::Lease(terms) => Ok(decide_lease(books, terms)),
        Command::End(ending) => Ok(decide_end(books, ending)),
        Command::Receipt(order) => Ok(decide_receipt(books, receipts, order)),
        Command::Run(order) | Command::Open(order) => Ok(decide_run(books, order)),
        Command::Staff(member) => decide_staff(alloc, books, member),
        Command::Owner(owner) => decide_owner(alloc, books, owner),
        Command::Property(property) => decide_property(alloc, books, property),
        Command::Assign(assignment) => Ok(decide_assign(books, assignment)),
        Command::Rent(change) => Ok(decide_rent(books, change)),
        Command::Client(client) => decide_client(alloc, books, client),
        Command::Register(registration) => Ok(decide_register(books, registration)),
        Command::Viewing(viewing) => decide_viewing(alloc, books, viewing),
        Command::Comment(comment) => decide_comment(alloc, books, comment),
        Command::Inspection(inspection) => decide_inspection(alloc, books, inspection),
    }
}

/// What the books say of the command: the first check that fails, what it was answered before, or the rows that it adds
/// or replaces. While a run is open, branches, fees, leases and their ends, receipts and runs are refused.
pub fn decide(alloc: Global, books: &Books, command: &Command) -> Result<Verdict, AllocError>
    ensures { IfOk result (λ v. v ≡ verdict_on books.now.books books.now.open_run command.now) }
{
    let open_month = books.open_run().map(|run| run.month);
    match open_refusal(&open_month, command) {
        Some(refusal) => Ok(Verdict::Refused(refusal)),
        None => decide_passed(alloc, books, books.receipt_count(), open_month, command),
    }
}

/// What books say of the command of which the facts are what it looks at, where no open run puts it off.
pub fn decide_on(alloc: Global, facts: &Facts, command: &Command) -> Result<Verdict, AllocError>
    requires { put_off_by facts.now.open_month command.now ≡ None }
    ensures { (books : Rows) (run : Option Run) → AreKeyed books → IsCutOf (facts_of facts.now) books run command.now
        → IfOk result (λ v. v ≡ verdict_on books run command.now) }
{
    let open_month = facts.open_month;
    decide_passed(alloc, &facts.books, facts.receipts, open_month, command)
}
