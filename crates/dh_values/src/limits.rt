//! The bounds of numbers and money.

/// The greatest number of a lease and of a receipt. The least is 1.
pub const MOST_NUMBER: u32 = 99_999_999;

/// The most rooms of a property. The least are 1.
pub const MOST_ROOMS: u32 = 15;

/// The fewest months that a lease runs.
pub const LEAST_LEASE_MONTHS: u32 = 3;

/// The most months that a lease runs.
pub const MOST_LEASE_MONTHS: u32 = 12;

/// The last index of a charge of its lease. The first is 0.
pub const MOST_CHARGE_INDEX: u32 = 11;

/// The most batches of a call. The fewest are 1.
pub const MOST_BATCHES: u32 = 1_000_000;

/// The greatest fee of a branch, in hundredths of a percent: all of the rent. The least is 0.
pub const MOST_FEE: u32 = 10_000;

/// The greatest monthly rent, in pence. The least is 1.
pub const MOST_RENT: u32 = 999_999;

/// The most that a receipt takes, in pence, and the most that a line can spell. The least that a receipt takes is 1.
pub const MOST_AMOUNT: u32 = 99_999_999;

/// The most money of all, in pence: 2^63 - 1, as a table keeps it.
pub const MOST_PENCE: u64 = 9_223_372_036_854_775_807;
