//! Whether each part has its fee row.

ghost use Rattle.std.specs.Prelude.{◌≡◌, ◌↔◌, ℕ, ◌+◌, ◌<◌, ◌≤◌, ◌^◌, List, [], true, false, IfOk, IfSome, OnOk};
ghost use Rattle.std.specs.FinMap as fin;
ghost use Rattle.dh_values.specs.declared.limits.TheConstants.{MOST_RENT};
ghost use Rattle.dh_types.specs.declared.version.Version.TheVariants.{First, Second};
ghost use Rattle.dh_model.specs.Runs.{charge_fee, fee_at};
ghost use Rattle.dh_model.specs.Rules.{Each, HasFees};
ghost use Rattle.dh_audit_rules.specs.Fees.{HasItsRow, HasMore, IsItsRow, branch_of, fee_sum_of, pence_at, so_far, with_charge};

use crate::closed_dues;
use dh_books::Books;
use dh_leases::charge_fee;
use dh_types::{Charge, EntryMonth, Fee, Id, LeaseNo, Part, PartFee, Version};
use std::alloc::{AllocError, Global};
use std::collections::BTreeMap;

// What a fee row takes of the charges so far.
#[derive(Clone, Copy)]
struct FeeSum {
    fee: Fee,
    pence: u128,
}

// By month and branch, where a charge was made.
type Fees = BTreeMap<(EntryMonth, Id), FeeSum>;

// The lease of a charge, and the branch of its property, where both are there.
#[derive(Clone, Copy)]
struct LeaseBranch {
    lease: LeaseNo,
    branch: Option<Id>,
}

fn branch_of(books: &Books, lease: LeaseNo) -> Option<Id>
    ensures { result ≡ branch_of books.now.books lease }
{
    closed_dues::branch_of(books, books.lease(&lease)?)
}

// The place of the lease: it is mostly that of the charge before.
fn lease_branch(books: &Books, before: Option<LeaseBranch>, lease: LeaseNo) -> LeaseBranch
    requires { IfSome before (λ latest. latest.branch ≡ branch_of books.now.books latest.lease) }
    ensures { result ≡ record { lease = lease; branch = branch_of books.now.books lease } }
{
    match before {
        Some(latest) if latest.lease == lease => latest,
        _ => LeaseBranch {
            lease,
            branch: branch_of(books, lease),
        },
    }
}

// What the fee row of the month and the branch takes before any charge. Where there is no such row, the fee is 0.
fn no_fee_yet(books: &Books, key: &(EntryMonth, Id)) -> FeeSum
    ensures { result ≡ fee_sum_of books.now.books [] key.now }
{
    let fee = match books.part_fee(key) {
        Some(row) => row.fee,
        None => Fee::of_number(0),
    };
    FeeSum { fee, pence: 0 }
}

// What the fee row takes with one charge more.
fn with_charge(taken: FeeSum, charge: &Charge) -> FeeSum
    requires { taken.pence + MOST_RENT < 2 ^ 128 }
    ensures value { result ≡ with_charge taken charge.now }
    ensures small { charge_fee taken.fee charge.now ≤ MOST_RENT }
{
    FeeSum {
        fee: taken.fee,
        pence: taken.pence + u128::from(charge_fee(taken.fee, charge)),
    }
}

// Adds what is taken of a charge that is made at the branch.
fn add(books: &Books, fees: &mut Fees, branch: Id, charge: &Charge) -> Result<(), AllocError>
    requires { (so_far books.now.books fees.old (charge.now.month, branch)).pence + MOST_RENT < 2 ^ 128 }
    ensures value { OnOk result (HasMore books.now.books fees.old fees.new (charge.now.month, branch) charge.now) }
    ensures small { OnOk result (charge_fee (so_far books.now.books fees.old (charge.now.month, branch)).fee charge.now ≤ MOST_RENT) }
{
    let key = (charge.month, branch);
    let taken = fees.entry(key)?.or_insert_with(|| no_fee_yet(books, &key));
    *taken = with_charge(*taken, charge);
    Ok(())
}

// What the fee rows take of the charges.
fn fees_of(alloc: Global, books: &Books) -> Result<Fees, AllocError>
    ensures { IfOk result (λ fees. (key : ℕ × List ℕ) → so_far books.now.books fees key
        ≡ fee_sum_of books.now.books (fin.values books.now.books.charges) key) }
{
    let charges = books.charges();
    // No more than this many, so that their sums fit.
    let _count = charges.len();
    let mut fees = BTreeMap::new(alloc);
    let mut latest = None;
    for charge in charges {
        let here = lease_branch(books, latest, charge.lease);
        let branch = here.branch;
        latest = Some(here);
        if let Some(branch) = branch {
            add(books, &mut fees, branch, charge)?;
        }
    }
    Ok(fees)
}

// Whether the fee is the present one of the part's branch, if the part's run is open.
fn is_present(books: &Books, part: &Part, row: &PartFee) -> bool
    ensures { (result ≡ true) ↔ IfSome (fin.get books.now.books.runs part.now.month)
        (λ run. run.is_closed ≡ false → row.now.fee ≡ fee_at books.now.books part.now.branch) }
{
    match books.run(&part.month) {
        Some(run) => run.is_closed || row.fee == books.fee_at(&part.branch),
        None => true,
    }
}

// Whether the row is the part's, and comes to this sum.
fn is_its_row(books: &Books, sum: u128, part: &Part, row: &PartFee) -> bool
    ensures { (result ≡ true) ↔ IsItsRow books.now.books sum part.now row.now }
{
    row.month == part.month
        && row.branch == part.branch
        && u128::from(row.total.pence()) == sum
        && is_present(books, part, row)
}

// The pence that were taken by month and branch.
fn pence_at(fees: &Fees, key: &(EntryMonth, Id)) -> u128
    ensures { result ≡ pence_at fees.now key.now }
{
    match fees.get(key) {
        Some(taken) => taken.pence,
        None => 0,
    }
}

// Whether the part has its fee row.
fn has_its_row(books: &Books, fees: &Fees, part: &Part) -> bool
    ensures { (result ≡ true) ↔ HasItsRow books.now.books (pence_at fees.now) part.now }
{
    let key = part.key();
    match books.part_fee(&key) {
        Some(row) => is_its_row(books, pence_at(fees, &key), part, row),
        None => false,
    }
}

// Whether each part has its fee row.
fn parts_have_fees(alloc: Global, books: &Books) -> Result<bool, AllocError>
    ensures { IfOk result (λ holds. (holds ≡ true) ↔ HasFees books.now.books Second) }
{
    let fees = fees_of(alloc, books)?;
    Ok(books.parts().all(|part| has_its_row(books, &fees, part)))
}

/// Whether each part has its fee row: it sums up the fees of the part's charges, of an open run by the present fee of the branch. In
/// books of the first version, whether there is no fee row. It fails where memory runs out.
pub fn fees_in_order(alloc: Global, books: &Books) -> Result<bool, AllocError>
    ensures { IfOk result (λ holds. (holds ≡ true) ↔ HasFees books.now.books books.now.books.version) }
{
    match books.version() {
        Version::First => Ok(books.part_fees().all(|_| false)),
        Version::Second => parts_have_fees(alloc, books),
    }
}
