//! The days that a lease covers.

ghost use Rattle.std.specs.Prelude.{◌≡◌, ◌<◌, nat_lt};
ghost use Rattle.dh_days.specs.Days.{IsDay};
ghost use Rattle.dh_model.specs.Leases.{covers, end_of, overlap};

use dh_types::{Day, LeaseTerms};

/// The first day that the lease covers no more: its start, its months later.
#[tactic(auto, using(crate::proofs::Overlaps::starts_before))]
pub fn end_of(lease: &LeaseTerms) -> Day
    ensures value { result ≡ end_of lease.now }
    ensures later { lease.now.start < end_of lease.now }
{
    let months = lease.months.number();
    lease.start.day().plus_months(months).unwrap()
}

/// Whether the lease covers the day: from its start on, and before its end.
pub fn covers(lease: &LeaseTerms, day: Day) -> bool
    ensures { result ≡ covers lease.now day }
{
    lease.start.day() <= day && day < end_of(lease)
}

// Whether the lease starts before the other's end.
fn starts_before_end_of(lease: &LeaseTerms, other: &LeaseTerms) -> bool
    ensures value { result ≡ nat_lt lease.now.start (end_of other.now) }
    ensures day { IsDay lease.now.start }
    ensures later { other.now.start < end_of other.now }
{
    lease.start.day() < end_of(other)
}

/// Whether the leases are of one property and some day is covered by both.
#[tactic(auto, using(crate::proofs::Overlaps::overlap_by_ends))]
pub fn overlap(lease: &LeaseTerms, other: &LeaseTerms) -> bool
    ensures { result ≡ overlap lease.now other.now }
{
    if lease.property != other.property {
        return false;
    }
    let starts_before = starts_before_end_of(lease, other);
    let ends_after = starts_before_end_of(other, lease);
    starts_before && ends_after
}
