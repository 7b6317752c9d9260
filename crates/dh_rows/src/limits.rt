//! The bounds of columns that have no type of their own.

/// The most charges of a run or of a part of one.
pub const MOST_COUNT: u32 = 4_294_967_295;
