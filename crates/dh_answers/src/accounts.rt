//! What was charged and paid, lease by lease.

ghost use Rattle.std.specs.Prelude.{◌≡◌, ℕ, ◌+◌, ◌*◌, ◌^◌, ◌<◌, ◌≤◌, pos, ◌-ℤ◌, ◌≤ℤ◌, if◌then◌else◌, nat_eq, IfOk, OnOk};
ghost use Rattle.dh_values.specs.declared.limits.TheConstants.{MOST_AMOUNT, MOST_RENT};
ghost use Rattle.dh_model.specs.Answers.{balance, charges_of, rent_paid};
ghost use Rattle.dh_model.specs.Runs.{total_of};
ghost use Rattle.dh_answers.specs.Sums.{sum_at};

use dh_books::Books;
use dh_types::{Balance, LeaseNo, ReceiptKind};
use std::alloc::{AllocError, Global};
use std::collections::BTreeMap;

// The pence under the lease, 0 where there are none.
fn sum_at(sums: &BTreeMap<LeaseNo, u128>, lease: LeaseNo) -> u128
    ensures { result ≡ sum_at sums.now lease }
{
    sums.get(&lease).copied().unwrap_or(0)
}

// Adds the pence to those of the lease.
fn add(sums: &mut BTreeMap<LeaseNo, u128>, lease: LeaseNo, pence: u128) -> Result<(), AllocError>
    requires { sum_at sums.old lease + pence < 2 ^ 128 }
    ensures { OnOk result ((other : ℕ) → sum_at sums.new other ≡ sum_at sums.old other + (if nat_eq lease other then pence else 0)) }
{
    let sum = sum_at(sums, lease) + pence;
    let _before = sums.insert(lease, sum)?;
    Ok(())
}

// The pence that were charged on each lease.
fn charged(alloc: Global, books: &Books) -> Result<BTreeMap<LeaseNo, u128>, AllocError>
    ensures value { IfOk result (λ sums. (lease : ℕ) → sum_at sums lease ≡ total_of (charges_of books.now.books lease)) }
    ensures range { IfOk result (λ sums. (lease : ℕ) → sum_at sums lease ≤ MOST_RENT * 2 ^ 64) }
{
    let mut charges = books.charges();
    // No more than this many, so that their sum fits.
    let _count = charges.len();
    let mut sums = BTreeMap::new(alloc);
    let Some(first) = charges.next() else {
        return Ok(sums);
    };
    // They come lease by lease, so that those of one lease are put in at once.
    let mut lease = first.lease;
    let mut pence = u128::from(first.amount.pence());
    for charge in charges {
        let more = u128::from(charge.amount.pence());
        if charge.lease == lease {
            pence += more;
        } else {
            add(&mut sums, lease, pence)?;
            lease = charge.lease;
            pence = more;
        }
    }
    add(&mut sums, lease, pence)?;
    Ok(sums)
}

// The pence of rent that were paid on each lease.
fn rent_paid(alloc: Global, books: &Books) -> Result<BTreeMap<LeaseNo, u128>, AllocError>
    ensures value { IfOk result (λ sums. (lease : ℕ) → sum_at sums lease ≡ rent_paid books.now.books lease) }
    ensures range { IfOk result (λ sums. (lease : ℕ) → sum_at sums lease ≤ MOST_AMOUNT * 2 ^ 64) }
{
    let receipts = books.receipts();
    // No more than this many, so that their sum fits.
    let _count = receipts.len();
    let mut sums = BTreeMap::new(alloc);
    for receipt in receipts {
        let payment = receipt.payment;
        if payment.kind == ReceiptKind::Rent {
            add(&mut sums, payment.lease, u128::from(payment.amount.pence()))?;
        }
    }
    Ok(sums)
}

/// The pence that were charged, and those of rent that were paid, by lease.
#[derive(Drop)]
pub(crate) struct Accounts {
    charged: BTreeMap<LeaseNo, u128>,
    paid: BTreeMap<LeaseNo, u128>,
    ghost charged_fit: { (lease : ℕ) → sum_at charged lease ≤ MOST_RENT * 2 ^ 64 },
    ghost paid_fit: { (lease : ℕ) → sum_at paid lease ≤ MOST_AMOUNT * 2 ^ 64 },
}

impl Accounts {
    /// The accounts of the books. It fails where memory runs out.
    pub(crate) fn of(alloc: Global, books: &Books) -> Result<Accounts, AllocError>
        ensures { IfOk result (λ accounts. (lease : ℕ)
            → (pos (sum_at accounts.charged lease) -ℤ pos (sum_at accounts.paid lease)) ≡ balance books.now.books lease) }
    {
        let charged = charged(alloc, books)?;
        let paid = rent_paid(alloc, books)?;
        Ok(Accounts { charged, paid })
    }

    /// What was charged on the lease, less the rent that was paid.
    pub(crate) fn balance(&self, lease: LeaseNo) -> Balance
        ensures value { result ≡ pos (sum_at self.now.charged lease) -ℤ pos (sum_at self.now.paid lease) }
        ensures range { result ≤ℤ pos (MOST_RENT * 2 ^ 64) }
    {
        let charged = sum_at(&self.charged, lease) as i128;
        let paid = sum_at(&self.paid, lease) as i128;
        Balance::of_pence(charged - paid)
    }
}
