//! What a question is answered.

ghost use Rattle.std.specs.Prelude.{◌≡◌};
ghost use Rattle.dh_types.specs.Reports.{is_no_report, report_of};

use crate::{
    Balance, Branch, Charge, Id, Lease, LeaseNo, Part, Pence, Property, Receipt, Refusal, Rent,
    RunSum, Text60,
};

/// The answer to a question.
#[derive(Drop)]
pub enum Answer {
    /// The branches, rising by number.
    Branches(Vec<Branch>),
    /// The properties that no lease covers, rising by number.
    Vacant(Vec<Property>),
    /// The properties that match, rising by rent and then by number.
    Matching(Vec<Property>),
    Statement(Statement),
    Arrears(Arrears),
    Run(RunReport),
    Owner(OwnerStatement),
    /// The question can't be answered.
    Refused(Refusal),
}

impl Answer {
    /// Whether the question was refused.
    pub fn is_refusal(&self) -> bool
        ensures { result ≡ is_no_report (report_of self.now) }
    {
        matches!(self, Answer::Refused(_))
    }
}

/// A lease, its charges rising by index, its receipts rising by number, and its balance.
#[derive(Drop)]
pub struct Statement {
    pub lease: Lease,
    pub charges: Vec<Charge>,
    pub receipts: Vec<Receipt>,
    pub balance: Balance,
}

/// The leases on which rent is owed, rising by number, and the sum of what is owed.
#[derive(Drop)]
pub struct Arrears {
    pub debts: Vec<Debt>,
    pub total: Balance,
}

/// A lease on which rent is owed.
#[derive(Drop)]
pub struct Debt {
    pub lease: LeaseNo,
    pub client: Id,
    pub balance: Balance,
    /// The client's name, where the client is in the books.
    pub name: Option<Text60>,
}

/// The parts of a closed run, rising by branch, and what it comes to.
#[derive(Drop)]
pub struct RunReport {
    pub parts: Vec<Part>,
    pub sum: RunSum,
}

/// What a month charged on an owner's properties, rising by lease, and what that comes to.
#[derive(Drop)]
pub struct OwnerStatement {
    pub lines: Vec<OwnerLine>,
    /// The sum of what was charged.
    pub total: Balance,
    /// The sum of what the branches take of it.
    pub fees: Balance,
    /// What is left for the owner.
    pub payable: Balance,
}

/// What was charged on a lease of an owner's property, and what its branch takes of it.
#[derive(Clone, Copy, PartialEq, Eq)]
pub struct OwnerLine {
    pub lease: LeaseNo,
    pub property: Id,
    pub amount: Rent,
    pub fee: Pence,
}
