//! The first and the last months, by number: 12 * year + month - 1.

/// 2000-01, the first month of all.
pub const FIRST_MONTH: u32 = 24_000;

/// 2199-12, the month of the last day that can be entered on a line.
pub const LAST_MONTH_OF_ENTRY_DAYS: u32 = 26_399;

/// 2200-12, the last month that can be entered on a line.
pub const LAST_ENTRY_MONTH: u32 = 26_411;

/// 2201-01, the last that can be next to be run: the one after the last that can be entered.
pub const LAST_NEXT_MONTH: u32 = 26_412;

/// 9999-12, the last month of the calendar.
pub const LAST_MONTH: u32 = 119_999;
