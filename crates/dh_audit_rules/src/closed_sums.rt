//! What falls due, summed up by month and by branch.

ghost use Rattle.std.specs.Prelude.{◌≡◌, ℕ, ◌+◌, ◌*◌, ◌<◌, ◌≤◌, ◌^◌, List, [], Some, IfOk, OnOk};
ghost use Rattle.std.specs.Ordering.{nat_cmp};
ghost use Rattle.dh_values.specs.declared.limits.TheConstants.{MOST_RENT};
ghost use Rattle.dh_model.specs.Books.{pair_cmp, text_cmp};
ghost use Rattle.dh_audit_rules.specs.ClosedMonths.{HasOneMore, charges_of_branch, charges_of_month, sum_at, sum_of, sum_of_part, with_charge};

use crate::closed_dues::Due;
use dh_types::{Charge, EntryMonth, Id, LeaseNo, Part};
use std::alloc::{AllocError, Global};
use std::collections::BTreeMap;

// What charges come to: the greatest lease, how many they are, and the sum of their amounts in pence.
#[derive(Clone, Copy, PartialEq, Eq)]
pub(crate) struct Sum {
    pub(crate) through: Option<LeaseNo>,
    pub(crate) count: u64,
    pub(crate) total: u128,
}

impl Sum {
    // What no charges come to.
    fn none() -> Sum
        ensures { result ≡ sum_of [] }
    {
        Sum {
            through: None,
            count: 0,
            total: 0,
        }
    }

    // What the part says of its charges.
    pub(crate) fn of_part(part: &Part) -> Sum
        ensures { result ≡ sum_of_part part.now }
    {
        Sum {
            through: part.through,
            count: u64::from(part.count),
            total: u128::from(part.total.pence()),
        }
    }

    // The sum with one charge more.
    fn with_charge(self, charge: &Charge) -> Sum
        requires few { self.count + 1 < 2 ^ 64 }
        requires small { self.total ≤ MOST_RENT * self.count }
        ensures value { result ≡ with_charge self charge.now }
        ensures bound { charge.now.amount ≤ MOST_RENT }
    {
        let through = match self.through {
            Some(most) if charge.lease < most => most,
            _ => charge.lease,
        };
        Sum {
            through: Some(through),
            count: self.count + 1,
            total: self.total + u128::from(charge.amount.pence()),
        }
    }
}

// The sum under the key, that of no charges where there is none.
pub(crate) fn sum_at<K: Ord>(sums: &BTreeMap<K, Sum>, key: &K) -> Sum
    ensures { result ≡ sum_at K.cmp sums.now key.now }
{
    sums.get(key).copied().unwrap_or(Sum::none())
}

// One charge more under the key.
fn add<K: Ord + Drop>(
    sums: &mut BTreeMap<K, Sum>,
    key: K,
    charge: &Charge,
) -> Result<(), AllocError>
    requires few { (sum_at K.cmp sums.old key).count + 1 < 2 ^ 64 }
    requires small { (sum_at K.cmp sums.old key).total ≤ MOST_RENT * (sum_at K.cmp sums.old key).count }
    ensures value { OnOk result (HasOneMore K.cmp sums.old sums.new key charge.now) }
    ensures bound { OnOk result (charge.now.amount ≤ MOST_RENT) }
{
    let sum = sums.entry(key)?.or_insert(Sum::none());
    *sum = sum.with_charge(charge);
    Ok(())
}

// What falls due in each month.
pub(crate) fn sums_of_months(
    alloc: Global,
    dues: &[Due],
) -> Result<BTreeMap<EntryMonth, Sum>, AllocError>
    ensures { IfOk result (λ sums. (month : ℕ) → sum_at nat_cmp sums month ≡ sum_of (charges_of_month dues.now month)) }
{
    let mut sums = BTreeMap::new(alloc);
    for due in dues {
        add(&mut sums, due.charge.month, &due.charge)?;
    }
    Ok(sums)
}

// What falls due in each month at each branch.
pub(crate) fn sums_of_branches(
    alloc: Global,
    dues: &[Due],
) -> Result<BTreeMap<(EntryMonth, Id), Sum>, AllocError>
    ensures { IfOk result (λ sums. (key : ℕ × List ℕ) → sum_at (pair_cmp nat_cmp text_cmp) sums key ≡ sum_of (charges_of_branch dues.now key)) }
{
    let mut sums = BTreeMap::new(alloc);
    for due in dues {
        if let Some(branch) = due.branch {
            add(&mut sums, (due.charge.month, branch), &due.charge)?;
        }
    }
    Ok(sums)
}
