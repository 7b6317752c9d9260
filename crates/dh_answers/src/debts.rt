//! The rent that is owed at a branch.

ghost use Rattle.std.specs.Prelude.{◌≡◌, ◌&&◌, true, pos, int_lt, IfOk, option_map};
ghost use Rattle.std.specs.FinMap as fin;
ghost use Rattle.dh_types.specs.Reports.{report_of};
ghost use Rattle.dh_model.specs.Answers as answers;
ghost use Rattle.dh_model.specs.Answers.{arrears, debt, debts, owed};
ghost use Rattle.dh_model.specs.Runs.{is_property_of};

use crate::accounts::Accounts;
use dh_books::Books;
use dh_types::{Answer, Arrears, Balance, Debt, Id, Lease, Refusal, Text60, field};
use std::alloc::{AllocError, Global};

// The name of the client of this number, where the client is in the books.
fn name_of(alloc: Global, books: &Books, client: &Id) -> Result<Option<Text60>, AllocError>
    ensures { IfOk result (λ name. name ≡ option_map (λ client. client.name) (fin.get books.now.books.clients client.now)) }
{
    match books.client(client) {
        Some(client) => Ok(Some(client.name.try_clone(alloc)?)),
        None => Ok(None),
    }
}

// Whether the lease is one of the branch's properties.
fn is_of_branch(books: &Books, lease: &Lease, branch: &Id) -> bool
    ensures { result ≡ is_property_of branch.now (fin.get books.now.books.properties lease.now.terms.property) }
{
    match books.property(&lease.terms.property) {
        Some(property) => property.branch == *branch,
        None => false,
    }
}

// Whether the lease is one of the branch's properties and something is owed on it.
fn is_debt(books: &Books, lease: &Lease, branch: &Id, balance: Balance) -> bool
    ensures { result ≡ (is_property_of branch.now (fin.get books.now.books.properties lease.now.terms.property) && int_lt (pos 0) balance) }
{
    is_of_branch(books, lease, branch) && balance.pence() > 0
}

// The lease with its client and its balance.
fn debt(alloc: Global, books: &Books, lease: &Lease, balance: Balance) -> Result<Debt, AllocError>
    requires { balance ≡ answers.balance books.now.books lease.now.terms.number }
    ensures { IfOk result (λ it. it ≡ debt books.now.books lease.now) }
{
    Ok(Debt {
        lease: lease.key(),
        client: lease.terms.client,
        balance,
        name: name_of(alloc, books, &lease.terms.client)?,
    })
}

// The debts at the branch, rising by lease, and their sum.
fn arrears_of(alloc: Global, books: &Books, branch: &Id) -> Result<Arrears, AllocError>
    ensures debts { IfOk result (λ arrears. arrears.debts.items ≡ debts books.now.books branch.now) }
    ensures total { IfOk result (λ arrears. arrears.total ≡ owed books.now.books arrears.debts.items) }
{
    let accounts = Accounts::of(alloc, books)?;
    let mut debts = Vec::new(alloc);
    let mut total = 0i128;
    for lease in books.leases() {
        let balance = accounts.balance(lease.key());
        if is_debt(books, lease, branch, balance) {
            debts.push(debt(alloc, books, lease, balance)?)?;
            total += balance.pence();
        }
    }
    let total = Balance::of_pence(total);
    Ok(Arrears { debts, total })
}

/// The leases of the branch's properties on which rent is owed, rising by number, each with its client and its balance
/// in pence, and the sum of these; refused 2 with field 3 where no branch has the number. It fails where memory runs
/// out.
pub fn arrears(alloc: Global, books: &Books, branch: &Id) -> Result<Answer, AllocError>
    ensures { IfOk result (λ answer. report_of answer ≡ arrears books.now.books branch.now) }
{
    if books.branch(branch).is_none() {
        return Ok(Answer::Refused(Refusal::Unknown(field::ASKED_ABOUT)));
    }
    Ok(Answer::Arrears(arrears_of(alloc, books, branch)?))
}
