//! Leases, what falls due on them, and what is paid.

ghost use Rattle.std.specs.Prelude.{◌≡◌};

use crate::{
    Amount, ChargeIndex, Day, EntryDay, EntryMonth, Id, Key, LeaseMonths, LeaseNo, PaymentMethod,
    ReceiptKind, ReceiptNo, Rent,
};

/// What a client signs: the property from the start day on, for so many months.
#[derive(Clone, Copy, PartialEq, Eq)]
pub struct LeaseTerms {
    pub number: LeaseNo,
    pub client: Id,
    pub property: Id,
    pub start: EntryDay,
    pub months: LeaseMonths,
    pub method: PaymentMethod,
}

/// A lease: its terms, and the rent that the property had when they were signed.
#[derive(Clone, Copy, PartialEq, Eq)]
pub struct Lease {
    pub terms: LeaseTerms,
    pub rent: Rent,
}

impl Lease {
    /// The number, which no other lease has.
    pub fn key(&self) -> LeaseNo
        ensures { result ≡ self.now.terms.number }
    {
        self.terms.number
    }
}

/// A lease that was ended early lasts so many months, fewer than it was signed for. There is one for a lease.
#[derive(Clone, Copy, Debug, PartialEq, Eq)]
pub struct Ending {
    pub lease: LeaseNo,
    pub months: LeaseMonths,
}

impl Ending {
    /// The lease, which no other ending has.
    pub fn key(&self) -> LeaseNo
        ensures { result ≡ self.now.lease }
    {
        self.lease
    }
}

/// Rent that fell due on a lease. There is one for a lease and an index.
#[derive(Clone, Copy, PartialEq, Eq, PartialOrd, Ord)]
pub struct Charge {
    pub lease: LeaseNo,
    pub index: ChargeIndex,
    pub month: EntryMonth,
    pub day: Day,
    pub amount: Rent,
}

impl Charge {
    /// The lease and the index, which no other charge has.
    pub fn key(&self) -> (LeaseNo, ChargeIndex)
        ensures { result ≡ (self.now.lease, self.now.index) }
    {
        (self.lease, self.index)
    }
}

/// What is paid on a lease, and what for.
#[derive(Clone, Copy, PartialEq, Eq)]
pub struct Payment {
    pub lease: LeaseNo,
    pub kind: ReceiptKind,
    pub amount: Amount,
    pub day: EntryDay,
}

/// A payment that was accepted under this key, with the number that it got.
#[derive(Clone, Copy, PartialEq, Eq)]
pub struct Receipt {
    pub number: ReceiptNo,
    pub key: Key,
    pub payment: Payment,
}

impl Receipt {
    /// The number, which no other receipt has.
    pub fn key(&self) -> ReceiptNo
        ensures { result ≡ self.now.number }
    {
        self.number
    }
}
