//! Receipts: deposits, keys and numbers.

ghost use Rattle.std.specs.Prelude.{◌≡◌, ◌↔◌, ◌≤◌, true, IfOk};
ghost use Rattle.std.specs.FinMap as fin;
ghost use Rattle.dh_model.specs.Rules.{DepositsInOrder, KeysInOrder};
ghost use Rattle.dh_audit_rules.specs.Receipts.{IsTwiceTheRent, all_keys, deposit_leases};

use crate::distinct::are_distinct;
use dh_books::Books;
use dh_types::{Key, LeaseNo, Receipt, ReceiptKind};
use std::alloc::{AllocError, Global};

// Whether the receipt, if it is of a deposit, is twice the rent of its lease, if that is there.
fn deposit_is_twice(books: &Books, receipt: &Receipt) -> bool
    ensures { (result ≡ true) ↔ IsTwiceTheRent books.now.books receipt.now }
{
    let payment = receipt.payment;
    if payment.kind != ReceiptKind::Deposit {
        return true;
    }
    match books.lease(&payment.lease) {
        Some(lease) => payment.amount.pence() == 2 * lease.rent.pence(),
        None => true,
    }
}

// The leases of the deposits.
fn deposit_leases(alloc: Global, books: &Books) -> Result<Vec<LeaseNo>, AllocError>
    ensures { IfOk result (λ leases. leases.items ≡ deposit_leases books.now.books) }
{
    books
        .receipts()
        .filter(|receipt| receipt.payment.kind == ReceiptKind::Deposit)
        .map(|receipt| receipt.payment.lease)
        .collect(alloc)
}

/// Whether each deposit is twice its lease's rent, and no lease has two. It fails where memory runs out.
pub fn deposits_in_order(alloc: Global, books: &Books) -> Result<bool, AllocError>
    ensures { IfOk result (λ holds. (holds ≡ true) ↔ DepositsInOrder books.now.books) }
{
    Ok(
        books.receipts().all(|it| deposit_is_twice(books, it))
            && are_distinct(alloc, deposit_leases(alloc, books)?)?,
    )
}

// The keys of receipts, and then those of runs.
fn keys(alloc: Global, books: &Books) -> Result<Vec<Key>, AllocError>
    ensures { IfOk result (λ keys. keys.items ≡ all_keys books.now.books) }
{
    let of_receipts = books.receipts().map(|receipt| receipt.key);
    let of_runs = books.runs().map(|run| run.key);
    of_receipts.chain(of_runs).collect(alloc)
}

/// Whether no key stands twice over receipts and runs, and the receipts are numbered from 1 to their count. It fails
/// where memory runs out.
pub fn keys_in_order(alloc: Global, books: &Books) -> Result<bool, AllocError>
    ensures { IfOk result (λ holds. (holds ≡ true) ↔ KeysInOrder books.now.books) }
{
    let count = books.receipt_count();
    let numbered = books.receipts().all(|receipt| {
        let number = receipt.number.number() as usize;
        1 <= number && number <= count
    });
    Ok(numbered && are_distinct(alloc, keys(alloc, books)?)?)
}
