//! The kinds of numbers, each with its bounds.

use crate::bounded::Bounded;
use crate::limits::{
    LEAST_LEASE_MONTHS, MOST_BATCHES, MOST_CHARGE_INDEX, MOST_FEE, MOST_LEASE_MONTHS, MOST_NUMBER,
    MOST_ROOMS,
};

/// The number of a lease, 1 to 99,999,999.
pub type LeaseNo = Bounded<LeaseNumber, 1, MOST_NUMBER>;

/// The kind of a [`LeaseNo`].
#[derive(Clone, Copy, Debug)]
pub struct LeaseNumber;

/// The number of a receipt, 1 to 99,999,999.
pub type ReceiptNo = Bounded<ReceiptNumber, 1, MOST_NUMBER>;

/// The kind of a [`ReceiptNo`].
#[derive(Clone, Copy, Debug)]
pub struct ReceiptNumber;

/// How many rooms a property has, 1 to 15.
pub type Rooms = Bounded<RoomCount, 1, MOST_ROOMS>;

/// The kind of a [`Rooms`].
#[derive(Clone, Copy, Debug)]
pub struct RoomCount;

/// How many months a lease runs, 3 to 12.
pub type LeaseMonths = Bounded<LeaseMonthCount, LEAST_LEASE_MONTHS, MOST_LEASE_MONTHS>;

/// The kind of a [`LeaseMonths`].
#[derive(Clone, Copy, Debug)]
pub struct LeaseMonthCount;

/// Which due of its lease a due is, 0 to 11.
pub type ChargeIndex = Bounded<ChargeNumber, 0, MOST_CHARGE_INDEX>;

/// The kind of a [`ChargeIndex`].
#[derive(Clone, Copy, Debug)]
pub struct ChargeNumber;

/// How many batches at most, 1 to 1,000,000.
pub type BatchCount = Bounded<BatchLimit, 1, MOST_BATCHES>;

/// The kind of a [`BatchCount`].
#[derive(Clone, Copy, Debug)]
pub struct BatchLimit;

/// What a branch takes of each rent, in hundredths of a percent, 0 to 10,000.
pub type Fee = Bounded<FeeRate, 0, MOST_FEE>;

/// The kind of a [`Fee`].
#[derive(Clone, Copy, Debug)]
pub struct FeeRate;
