//! Receipts and rent runs, each accepted once for its key.

ghost use Rattle.std.specs.Prelude.{◌≡◌, ◌∷◌, ◌*◌, option_copied};
ghost use Rattle.dh_model.specs.Checks.{first_failing, has_deposit, receipt_of_key, run_of_key};
ghost use Rattle.dh_model.specs.Verdicts.{decided, payment_checks, receipt_ruling, run_verdict};

use dh_books::Books;
use dh_model::{Change, Verdict};
use dh_types::{
    Key, LeaseNo, Payment, Pence, Receipt, ReceiptKind, ReceiptNo, ReceiptOrder, Refusal, Rent,
    Reply, Run, RunOrder, field,
};
use dh_values::limits::MOST_NUMBER;

// The receipt that has this key.
fn receipt_of_key<'a>(books: &'a Books, key: &Key) -> Option<&'a Receipt>
    ensures { option_copied result ≡ receipt_of_key books.now.books key.now }
{
    books.receipts().find(|receipt| receipt.key == *key)
}

// The run that has this key.
fn run_of_key<'a>(books: &'a Books, key: &Key) -> Option<&'a Run>
    ensures { option_copied result ≡ run_of_key books.now.books key.now }
{
    books.runs().find(|run| run.key == *key)
}

// Whether the lease has a deposit receipt.
fn has_deposit(books: &Books, lease: LeaseNo) -> bool
    ensures { result ≡ has_deposit books.now.books lease }
{
    books.receipts().any(|receipt| {
        receipt.payment.lease == lease && receipt.payment.kind == ReceiptKind::Deposit
    })
}

// What the deposit on a lease of this rent is.
fn deposit_on(rent: Rent) -> Pence
    ensures { result ≡ 2 * rent }
{
    Pence::of_pence(2 * rent.pence() as u64)
}

// The first check that the payment fails.
fn payment_refusal(books: &Books, payment: &Payment) -> Option<Refusal>
    ensures { result ≡ first_failing (payment_checks books.now.books payment.now) }
{
    let Some(lease) = books.lease(&payment.lease) else {
        return Some(Refusal::Unknown(field::RECEIPT_LEASE));
    };
    if payment.kind != ReceiptKind::Deposit {
        return None;
    }
    if has_deposit(books, payment.lease) {
        return Some(Refusal::DepositPaid);
    }
    let expected = deposit_on(lease.rent);
    if payment.amount.pence() as u64 == expected.pence() {
        None
    } else {
        Some(Refusal::DepositAmount(expected))
    }
}

/// What the books say of a payment under a key that no other receipt or run has, where there are so many receipts: its
/// receipt, with the next number.
pub(crate) fn decide_receipt(books: &Books, receipts: usize, order: &ReceiptOrder) -> Verdict
    ensures { result ≡ decided (receipt_ruling books.now.books receipts order.now) }
{
    if let Some(receipt) = receipt_of_key(books, &order.key) {
        return if order.payment == receipt.payment {
            Verdict::Already(Reply::AlreadyReceipt(receipt.number))
        } else {
            Verdict::Refused(Refusal::KeyUsed)
        };
    }
    if run_of_key(books, &order.key).is_some() {
        return Verdict::Refused(Refusal::KeyUsed);
    }
    if let Some(refusal) = payment_refusal(books, &order.payment) {
        return Verdict::Refused(refusal);
    }
    if receipts >= MOST_NUMBER as usize {
        return Verdict::Refused(Refusal::Full);
    }
    Verdict::Change(Change::Receipt(Receipt {
        number: ReceiptNo::of_number(receipts as u32 + 1),
        key: order.key,
        payment: order.payment,
    }))
}

/// What the books say of a month's rent run under a key that no receipt or other run has: the run's row, open.
pub fn decide_run(books: &Books, order: &RunOrder) -> Verdict
    ensures { result ≡ run_verdict books.now.books order.now }
{
    if let Some(run) = run_of_key(books, &order.key) {
        return if order.month == run.month {
            Verdict::Already(Reply::AlreadyPosted(run.sum()))
        } else {
            Verdict::Refused(Refusal::KeyUsed)
        };
    }
    if receipt_of_key(books, &order.key).is_some() {
        return Verdict::Refused(Refusal::KeyUsed);
    }
    let next = books.next();
    if order.month.month() != next {
        return Verdict::Refused(Refusal::NotNextMonth(next));
    }
    Verdict::Change(Change::Open(Run {
        month: order.month,
        key: order.key,
        count: 0,
        total: Pence::of_pence(0),
        is_closed: false,
    }))
}
