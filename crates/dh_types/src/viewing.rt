//! Viewings by clients, and inspections by staff.

ghost use Rattle.std.specs.Prelude.{◌≡◌, IfOk};

use crate::{Comment, EntryDay, Id};
use std::alloc::{AllocError, Global};

// The same comment, if any, in memory of its own.
fn comment_again(comment: &Option<Comment>, alloc: Global) -> Result<Option<Comment>, AllocError>
    ensures { IfOk result (λ c. c ≡ comment.now) }
{
    match comment {
        Some(comment) => Ok(Some(comment.try_clone(alloc)?)),
        None => Ok(None),
    }
}

/// A client's viewing of a property, with what the client said of it, if anything. There is one for a client and a property.
#[derive(Drop, PartialEq, Eq)]
pub struct Viewing {
    pub client: Id,
    pub property: Id,
    pub day: EntryDay,
    pub comment: Option<Comment>,
}

impl Viewing {
    /// The client and the property, which no other viewing has.
    pub fn key(&self) -> (Id, Id)
        ensures { result ≡ (self.now.client, self.now.property) }
    {
        (self.client, self.property)
    }

    /// The same viewing in memory of its own.
    pub fn try_clone(&self, alloc: Global) -> Result<Viewing, AllocError>
        ensures { IfOk result (λ v. v ≡ self.now) }
    {
        Ok(Viewing {
            client: self.client,
            property: self.property,
            day: self.day,
            comment: comment_again(&self.comment, alloc)?,
        })
    }
}

/// An inspection of a property by a member of staff. There is one for a property and a day.
#[derive(Drop, PartialEq, Eq)]
pub struct Inspection {
    pub property: Id,
    pub day: EntryDay,
    pub staff: Id,
    pub comment: Comment,
}

impl Inspection {
    /// The property and the day, which no other inspection has.
    pub fn key(&self) -> (Id, EntryDay)
        ensures { result ≡ (self.now.property, self.now.day) }
    {
        (self.property, self.day)
    }

    /// The same inspection in memory of its own.
    pub fn try_clone(&self, alloc: Global) -> Result<Inspection, AllocError>
        ensures { IfOk result (λ i. i ≡ self.now) }
    {
        Ok(Inspection {
            property: self.property,
            day: self.day,
            staff: self.staff,
            comment: self.comment.try_clone(alloc)?,
        })
    }
}
