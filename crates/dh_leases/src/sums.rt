//! What charges come to.

ghost use Rattle.std.specs.Prelude.{◌≡◌, ◌+◌, ◌*◌, ◌<◌, ◌≤◌, List, [], ◌++◌, Some, length};
ghost use Rattle.dh_values.specs.declared.limits.TheConstants.{MOST_NUMBER, MOST_RENT};
ghost use Rattle.dh_types.specs.declared.lease.Charge.{Charge};
ghost use Rattle.dh_model.specs.Runs.{at_least, charge_fee, closed_run, part_fee_of, part_of};
ghost use Rattle.dh_leases.specs.Sums.{sum_of};

use dh_types::{Charge, EntryMonth, Fee, Id, LeaseNo, Part, PartFee, Pence, Run};

/// The greatest lease among charges, how many they are, the pence that they come to, and what a fee takes of these.
#[derive(Clone, Copy)]
pub struct Sum {
    pub fee: Fee,
    pub through: Option<LeaseNo>,
    pub count: u32,
    pub total: Pence,
    pub fees: Pence,
}

// What no charges come to.
fn nothing(fee: Fee) -> Sum
    ensures { result ≡ sum_of fee [] }
{
    Sum {
        fee,
        through: None,
        count: 0,
        total: Pence::of_pence(0),
        fees: Pence::of_pence(0),
    }
}

/// What the fee takes of the charge, in whole pence, rounded down.
pub fn charge_fee(fee: Fee, charge: &Charge) -> u64
    ensures value { result ≡ charge_fee fee charge.now }
    ensures bound { result ≤ charge.now.amount }
    ensures small { charge.now.amount ≤ MOST_RENT }
{
    u64::from(charge.amount.pence()) * u64::from(fee.number()) / 10_000
}

// The greater lease.
fn greater(through: Option<LeaseNo>, lease: LeaseNo) -> LeaseNo
    ensures { result ≡ at_least through lease }
{
    match through {
        Some(most) if lease < most => most,
        _ => lease,
    }
}

// The sum with one charge more.
fn with_charge(sum: Sum, charge: &Charge) -> Sum
    requires few { sum.count ≤ MOST_NUMBER }
    requires small { sum.total ≤ MOST_RENT * sum.count }
    requires less { sum.fees ≤ sum.total }
    ensures value { result ≡ record {
      fee = sum.fee;
      through = Some (at_least sum.through charge.now.lease);
      count = sum.count + 1;
      total = sum.total + charge.now.amount;
      fees = sum.fees + charge_fee sum.fee charge.now;
    } }
    ensures bound { charge.now.amount ≤ MOST_RENT }
    ensures less { result.fees ≤ result.total }
{
    let amount = u64::from(charge.amount.pence());
    Sum {
        fee: sum.fee,
        through: Some(greater(sum.through, charge.lease)),
        count: sum.count + 1,
        total: Pence::of_pence(sum.total.pence() + amount),
        fees: Pence::of_pence(sum.fees.pence() + charge_fee(sum.fee, charge)),
    }
}

/// What charges that come to the sum come to with these behind them.
pub(crate) fn sum_with(mut sum: Sum, charges: &[Charge]) -> Sum
    requires few { sum.count + length charges.now ≤ MOST_NUMBER + 1 }
    requires small { sum.total ≤ MOST_RENT * sum.count }
    requires less { sum.fees ≤ sum.total }
    ensures value { (before : List Charge) → sum ≡ sum_of sum.fee before → result ≡ sum_of sum.fee (before ++ charges.now) }
    ensures small { result.total ≤ MOST_RENT * result.count }
    ensures less { result.fees ≤ result.total }
{
    for charge in charges {
        sum = with_charge(sum, charge);
    }
    sum
}

/// What the charges come to, and what this fee takes of them.
pub fn sum_of(fee: Fee, charges: &[Charge]) -> Sum
    requires { length charges.now ≤ MOST_NUMBER + 1 }
    ensures value { result ≡ sum_of fee charges.now }
    ensures small { result.total ≤ MOST_RENT * result.count }
    ensures less { result.fees ≤ result.total }
{
    sum_with(nothing(fee), charges)
}

// What the charges come to, where nothing is taken of them.
fn sum_alone(charges: &[Charge]) -> Sum
    requires { length charges.now ≤ MOST_NUMBER + 1 }
    ensures { result ≡ sum_of 0 charges.now }
{
    sum_of(Fee::of_number(0), charges)
}

/// What the branch has of the month's run where its charges come to the sum.
pub(crate) fn part_of_sum(month: EntryMonth, branch: Id, sum: Sum) -> Part
    ensures { (charges : List Charge) → sum ≡ sum_of sum.fee charges → result ≡ part_of month branch charges }
{
    Part {
        month,
        branch,
        through: sum.through,
        count: sum.count,
        total: sum.total,
    }
}

/// What the branch takes of the month's run where its charges come to the sum.
pub(crate) fn fee_of_sum(month: EntryMonth, branch: Id, sum: Sum) -> PartFee
    ensures { (charges : List Charge) → sum ≡ sum_of sum.fee charges → result ≡ part_fee_of month branch sum.fee charges }
{
    PartFee {
        month,
        branch,
        fee: sum.fee,
        total: sum.fees,
    }
}

/// What the branch has of the month's run where these are its charges.
pub(crate) fn part_with(month: EntryMonth, branch: Id, charges: &[Charge]) -> Part
    requires { length charges.now ≤ MOST_NUMBER + 1 }
    ensures { result ≡ part_of month branch charges.now }
{
    part_of_sum(month, branch, sum_alone(charges))
}

/// What the branch takes of the month's run by this fee where these are its charges.
pub(crate) fn fee_with(month: EntryMonth, branch: Id, fee: Fee, charges: &[Charge]) -> PartFee
    requires { length charges.now ≤ MOST_NUMBER + 1 }
    ensures { result ≡ part_fee_of month branch fee charges.now }
{
    fee_of_sum(month, branch, sum_of(fee, charges))
}

/// The run closed with these charges.
pub(crate) fn closed(run: Run, charges: &[Charge]) -> Run
    requires { length charges.now ≤ MOST_NUMBER + 1 }
    ensures { result ≡ closed_run run.month run.key charges.now }
{
    let sum = sum_alone(charges);
    Run {
        count: sum.count,
        total: sum.total,
        is_closed: true,
        ..run
    }
}
