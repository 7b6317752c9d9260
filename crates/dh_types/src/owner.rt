//! Owners of properties.

ghost use Rattle.std.specs.Prelude.{◌≡◌, IfOk};

use crate::{Id, Text60};
use std::alloc::{AllocError, Global};

/// A private owner.
#[derive(Drop, PartialEq, Eq)]
pub struct Owner {
    pub number: Id,
    pub name: Text60,
    pub address: Text60,
    pub telephone: Text60,
}

impl Owner {
    /// The number, which no other owner has.
    pub fn key(&self) -> Id
        ensures { result ≡ self.now.number }
    {
        self.number
    }

    /// The same owner in memory of its own.
    pub fn try_clone(&self, alloc: Global) -> Result<Owner, AllocError>
        ensures { IfOk result (λ o. o ≡ self.now) }
    {
        Ok(Owner {
            number: self.number,
            name: self.name.try_clone(alloc)?,
            address: self.address.try_clone(alloc)?,
            telephone: self.telephone.try_clone(alloc)?,
        })
    }
}
