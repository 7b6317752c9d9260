//! Branches of the agency.

ghost use Rattle.std.specs.Prelude.{◌≡◌, [], ◌∷◌, IfOk, map};
ghost use Rattle.dh_types.specs.Branches.{IsBranch};

use crate::{Id, Text60};
use std::alloc::{AllocError, Global};

/// A branch office.
#[derive(Drop, PartialEq, Eq)]
pub struct Branch {
    pub number: Id,
    pub street: Text60,
    pub city: Text60,
    pub postcode: Text60,
}

impl Branch {
    /// The number, which no other branch has.
    pub fn key(&self) -> Id
        ensures { result ≡ self.now.number }
    {
        self.number
    }

    /// The same branch in memory of its own.
    pub fn try_clone(&self, alloc: Global) -> Result<Branch, AllocError>
        ensures { IfOk result (λ b. b ≡ self.now) }
    {
        Ok(Branch {
            number: self.number,
            street: self.street.try_clone(alloc)?,
            city: self.city.try_clone(alloc)?,
            postcode: self.postcode.try_clone(alloc)?,
        })
    }

    /// The number, the street, the city and the postcode.
    pub fn fields(&self) -> [&str; 4]
        ensures texts { map (λ s. s.now) result ≡ self.now.number ∷ self.now.street ∷ self.now.city ∷ self.now.postcode ∷ [] }
        ensures grammar { IsBranch self.now }
    {
        [
            Id::as_str(&self.number),
            self.street.as_str(),
            self.city.as_str(),
            self.postcode.as_str(),
        ]
    }
}
