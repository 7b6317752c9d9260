//! What was charged and paid on a lease.

ghost use Rattle.std.specs.Prelude.{◌≡◌, IfOk};
ghost use Rattle.std.specs.FinMap as fin;
ghost use Rattle.dh_types.specs.Reports.{report_of};
ghost use Rattle.dh_model.specs.Answers.{charges_of, receipts_of, statement};

use crate::balance;
use dh_books::Books;
use dh_types::{Answer, Balance, Charge, LeaseNo, Receipt, Refusal, Statement, field};
use std::alloc::{AllocError, Global};

// The charges on the lease, rising by index.
fn charges(alloc: Global, books: &Books, lease: LeaseNo) -> Result<Vec<Charge>, AllocError>
    ensures { IfOk result (λ rows. rows.items ≡ charges_of books.now.books lease) }
{
    books
        .charges()
        .copied()
        .filter(|charge| charge.lease == lease)
        .collect(alloc)
}

// The receipts of the lease, rising by number.
fn receipts(alloc: Global, books: &Books, lease: LeaseNo) -> Result<Vec<Receipt>, AllocError>
    ensures { IfOk result (λ rows. rows.items ≡ receipts_of books.now.books lease) }
{
    books
        .receipts()
        .copied()
        .filter(|receipt| receipt.payment.lease == lease)
        .collect(alloc)
}

/// The lease, its charges rising by index, its receipts rising by number, and its balance in pence; refused 2 with field
/// 3 where no lease has the number. It fails where memory runs out.
pub fn statement(alloc: Global, books: &Books, lease: LeaseNo) -> Result<Answer, AllocError>
    ensures { IfOk result (λ answer. report_of answer ≡ statement books.now.books (fin.get books.now.books.leases lease)) }
{
    let Some(lease) = books.lease(&lease) else {
        return Ok(Answer::Refused(Refusal::Unknown(field::ASKED_ABOUT)));
    };
    let number = lease.key();
    Ok(Answer::Statement(Statement {
        lease: *lease,
        charges: charges(alloc, books, number)?,
        receipts: receipts(alloc, books, number)?,
        balance: Balance::of_pence(balance(books, number)),
    }))
}
