//! What the books say of a command.

ghost use Rattle.std.specs.Prelude.{◌≡◌};
ghost use Rattle.dh_model.specs.Machine.{accepted};

use dh_types::{
    Assignment, Branch, BranchFee, Client, Ending, Inspection, Lease, Owner, Property, Receipt,
    Refusal, Registration, RentChange, Reply, Run, Staff, Viewing, ViewingComment,
};

/// Rows that a command adds or replaces.
#[derive(Drop)]
pub enum Change {
    Branch(Branch),
    /// The branch gets its first fee.
    NewFee(BranchFee),
    /// The branch gets another fee.
    Fee(BranchFee),
    Staff(Staff),
    Owner(Owner),
    Property(Property),
    /// The property gets this manager, or none.
    Assign(Assignment),
    /// The property gets this rent.
    Rent(RentChange),
    Client(Client),
    Register(Registration),
    Viewing(Viewing),
    /// The viewing gets this comment.
    Comment(ViewingComment),
    Inspection(Inspection),
    Lease(Lease),
    /// The lease is ended early.
    NewEnding(Ending),
    /// The lease is ended earlier still.
    Ending(Ending),
    Receipt(Receipt),
    /// The month's rent run, open, and the next month moved on.
    Open(Run),
    /// No rows: batches are posted one by one.
    Post,
}

impl Change {
    /// What the change is answered where it is accepted: a receipt its number.
    pub fn reply(&self) -> Reply
        ensures { result ≡ accepted self.now }
    {
        match self {
            Change::Receipt(it) => Reply::Receipt(it.number),
            _ => Reply::Accepted,
        }
    }
}

/// The verdict on a command.
#[derive(Drop)]
pub enum Verdict {
    /// It is accepted with these rows.
    Change(Change),
    /// It was carried out before; the kept reply.
    Already(Reply),
    /// It is refused.
    Refused(Refusal),
}
