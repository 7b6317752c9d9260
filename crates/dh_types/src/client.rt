//! Clients, and where they are registered.

ghost use Rattle.std.specs.Prelude.{◌≡◌, IfOk};

use crate::{EntryDay, Id, PropertyType, Rent, Text60};
use std::alloc::{AllocError, Global};

/// Someone who looks for a property to rent.
#[derive(Drop, PartialEq, Eq)]
pub struct Client {
    pub number: Id,
    pub name: Text60,
    pub telephone: Text60,
    pub preferred_type: PropertyType,
    /// The greatest monthly rent that the client would pay.
    pub greatest_rent: Rent,
}

impl Client {
    /// The number, which no other client has.
    pub fn key(&self) -> Id
        ensures { result ≡ self.now.number }
    {
        self.number
    }

    /// The same client in memory of its own.
    pub fn try_clone(&self, alloc: Global) -> Result<Client, AllocError>
        ensures { IfOk result (λ c. c ≡ self.now) }
    {
        Ok(Client {
            number: self.number,
            name: self.name.try_clone(alloc)?,
            telephone: self.telephone.try_clone(alloc)?,
            preferred_type: self.preferred_type,
            greatest_rent: self.greatest_rent,
        })
    }
}

/// A client's registration at a branch, by a member of its staff. There is one for a client and a branch.
#[derive(Clone, Copy, PartialEq, Eq)]
pub struct Registration {
    pub client: Id,
    pub branch: Id,
    pub staff: Id,
    pub day: EntryDay,
}

impl Registration {
    /// The client and the branch, which no other registration has.
    pub fn key(&self) -> (Id, Id)
        ensures { result ≡ (self.now.client, self.now.branch) }
    {
        (self.client, self.branch)
    }
}
