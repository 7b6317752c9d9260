//! Properties for rent.

ghost use Rattle.std.specs.Prelude.{◌≡◌, IfOk};

use crate::{Id, PropertyType, Rent, Rooms, Text60};
use std::alloc::{AllocError, Global};

/// A property for rent. It belongs to an owner and a branch, and is managed by a member of that branch's staff or by
/// nobody.
#[derive(Drop, PartialEq, Eq)]
pub struct Property {
    pub number: Id,
    pub street: Text60,
    pub city: Text60,
    pub postcode: Text60,
    pub property_type: PropertyType,
    pub rooms: Rooms,
    /// What a lease that is signed now pays a month.
    pub rent: Rent,
    pub owner: Id,
    pub staff: Option<Id>,
    pub branch: Id,
}

impl Property {
    /// The number, which no other property has.
    pub fn key(&self) -> Id
        ensures { result ≡ self.now.number }
    {
        self.number
    }

    /// The same property in memory of its own.
    pub fn try_clone(&self, alloc: Global) -> Result<Property, AllocError>
        ensures { IfOk result (λ p. p ≡ self.now) }
    {
        Ok(Property {
            number: self.number,
            street: self.street.try_clone(alloc)?,
            city: self.city.try_clone(alloc)?,
            postcode: self.postcode.try_clone(alloc)?,
            property_type: self.property_type,
            rooms: self.rooms,
            rent: self.rent,
            owner: self.owner,
            staff: self.staff,
            branch: self.branch,
        })
    }
}
