//! Members of staff.

ghost use Rattle.std.specs.Prelude.{◌≡◌, IfOk};

use crate::{Id, Position, Text60};
use std::alloc::{AllocError, Global};

/// A member of staff, who belongs to one branch.
#[derive(Drop, PartialEq, Eq)]
pub struct Staff {
    pub number: Id,
    pub name: Text60,
    pub position: Position,
    pub branch: Id,
}

impl Staff {
    /// The number, which no other member of staff has.
    pub fn key(&self) -> Id
        ensures { result ≡ self.now.number }
    {
        self.number
    }

    /// The same member in memory of its own.
    pub fn try_clone(&self, alloc: Global) -> Result<Staff, AllocError>
        ensures { IfOk result (λ s. s ≡ self.now) }
    {
        Ok(Staff {
            number: self.number,
            name: self.name.try_clone(alloc)?,
            position: self.position,
            branch: self.branch,
        })
    }
}
