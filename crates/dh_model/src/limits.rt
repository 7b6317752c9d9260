//! What the agency has set, and what was set below it, in figures.

ghost use Rattle.std.specs.Prelude.{◌≡◌, ◌+◌, ◌*◌};
ghost use Rattle.dh_values.specs.declared.limits.TheConstants.{LEAST_LEASE_MONTHS, MOST_AMOUNT, MOST_BATCHES, MOST_CHARGE_INDEX};
ghost use Rattle.dh_values.specs.declared.limits.TheConstants.{MOST_FEE, MOST_LEASE_MONTHS, MOST_NUMBER, MOST_PENCE, MOST_RENT, MOST_ROOMS};
ghost use Rattle.dh_days.specs.declared.limits.TheConstants.{FIRST_MONTH, LAST_ENTRY_MONTH, LAST_MONTH, LAST_MONTH_OF_ENTRY_DAYS, LAST_NEXT_MONTH};

/// How many charges one batch of a rent run has at most.
pub const BATCH_SIZE: u64 = 50;

/// How many properties a member of staff manages at most.
pub const MANAGED_AT_MOST: u64 = 100;

/// The limits in figures, which no definition says.
pub fn limits_in_figures()
    ensures batch { BATCH_SIZE ≡ 50 }
    ensures managed { MANAGED_AT_MOST ≡ 100 }
{}

/// The bounds of numbers and money in figures, which no definition says.
pub fn value_limits_in_figures()
    ensures number { MOST_NUMBER ≡ 99_999_999 }
    ensures rooms { MOST_ROOMS ≡ 15 }
    ensures least_months { LEAST_LEASE_MONTHS ≡ 3 }
    ensures most_months { MOST_LEASE_MONTHS ≡ 12 }
    ensures charge_index { MOST_CHARGE_INDEX ≡ 11 }
    ensures batches { MOST_BATCHES ≡ 1_000_000 }
    ensures fee { MOST_FEE ≡ 10_000 }
    ensures rent { MOST_RENT ≡ 999_999 }
    ensures amount { MOST_AMOUNT ≡ 99_999_999 }
    ensures pence { MOST_PENCE ≡ 9_223_372_036_854_775_807 }
{}

/// The first and the last months in figures, which no definition says. The number of a month is 12 times its year, and then 0 for
/// January to 11 for December.
pub fn day_limits_in_figures()
    ensures first { FIRST_MONTH ≡ 12 * 2000 }
    ensures last_of_entry_days { LAST_MONTH_OF_ENTRY_DAYS ≡ 12 * 2199 + 11 }
    ensures last_entry { LAST_ENTRY_MONTH ≡ 12 * 2200 + 11 }
    ensures last_next { LAST_NEXT_MONTH ≡ 12 * 2201 }
    ensures last { LAST_MONTH ≡ 12 * 9999 + 11 }
{}
