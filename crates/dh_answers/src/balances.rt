//! What is owed on a lease.

ghost use Rattle.std.specs.Prelude.{◌≡◌, ◌*◌, ◌^◌, ◌≤◌};
ghost use Rattle.dh_values.specs.declared.limits.TheConstants.{MOST_AMOUNT, MOST_RENT};
ghost use Rattle.dh_model.specs.Answers.{balance, charges_of, rent_paid};
ghost use Rattle.dh_model.specs.Runs.{total_of};

use dh_books::Books;
use dh_types::{LeaseNo, ReceiptKind};

// The pence that were charged on the lease.
fn charged(books: &Books, lease: LeaseNo) -> u128
    ensures value { result ≡ total_of (charges_of books.now.books lease) }
    ensures range { result ≤ MOST_RENT * 2 ^ 64 }
{
    let charges = books.charges();
    // No more than this many, so that their sum fits.
    let _count = charges.len();
    let mut sum = 0u128;
    for charge in charges {
        if charge.lease == lease {
            sum += u128::from(charge.amount.pence());
        }
    }
    sum
}

// The pence of rent that were paid on the lease.
fn rent_paid(books: &Books, lease: LeaseNo) -> u128
    ensures value { result ≡ rent_paid books.now.books lease }
    ensures range { result ≤ MOST_AMOUNT * 2 ^ 64 }
{
    let receipts = books.receipts();
    // No more than this many, so that their sum fits.
    let _count = receipts.len();
    let mut sum = 0u128;
    for receipt in receipts {
        let payment = receipt.payment;
        if payment.lease == lease && payment.kind == ReceiptKind::Rent {
            sum += u128::from(payment.amount.pence());
        }
    }
    sum
}

/// The pence that were charged on the lease, less the rent that was paid; 0 for a number that no lease has. It takes no memory.
pub fn balance(books: &Books, lease: LeaseNo) -> i128
    ensures { result ≡ balance books.now.books lease }
{
    let charged = charged(books, lease) as i128;
    let paid = rent_paid(books, lease) as i128;
    charged - paid
}
