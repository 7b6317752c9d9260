//! What an agency is told.

use crate::{
    BatchCount, Branch, BranchFee, Client, Comment, Ending, EntryMonth, Id, Inspection, Key,
    LeaseTerms, Owner, Payment, Property, Registration, Rent, Staff, Viewing,
};

/// A change that is asked for. It holds nothing that a line can't hold.
#[derive(Drop)]
pub enum Command {
    /// Opens a branch office.
    Branch(Branch),
    /// A branch takes this fee of the rents of the months that are run from now on.
    Fee(BranchFee),
    Staff(Staff),
    Owner(Owner),
    Property(Property),
    Assign(Assignment),
    Rent(RentChange),
    Client(Client),
    Register(Registration),
    Viewing(Viewing),
    Comment(ViewingComment),
    Inspection(Inspection),
    Lease(LeaseTerms),
    /// Ends a lease early.
    End(Ending),
    Receipt(ReceiptOrder),
    /// Carries out the rent run of a month.
    Run(RunOrder),
    /// Opens the rent run of a month, which is then carried out in parts.
    Open(RunOrder),
    /// Carries out at most so many batches of the open run, and closes it where none is left.
    Post(BatchCount),
}

/// A property gets this manager, or none.
#[derive(Clone, Copy, PartialEq, Eq)]
pub struct Assignment {
    pub property: Id,
    pub staff: Option<Id>,
}

/// A property gets this rent.
#[derive(Clone, Copy, PartialEq, Eq)]
pub struct RentChange {
    pub property: Id,
    pub rent: Rent,
}

/// A viewing gets this comment.
#[derive(Drop, PartialEq, Eq)]
pub struct ViewingComment {
    pub client: Id,
    pub property: Id,
    pub comment: Comment,
}

/// A payment is to be accepted, once for this key.
#[derive(Clone, Copy, PartialEq, Eq)]
pub struct ReceiptOrder {
    pub key: Key,
    pub payment: Payment,
}

/// A month's rent run is to be made, once for this key.
#[derive(Clone, Copy, PartialEq, Eq)]
pub struct RunOrder {
    pub key: Key,
    pub month: EntryMonth,
}
