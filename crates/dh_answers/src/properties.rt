//! Properties, their managers and their rents.

ghost use Rattle.std.specs.Prelude.{◌≡◌, IfOk, Some};
ghost use Rattle.dh_model.specs.Checks.{first_failing};
ghost use Rattle.dh_model.specs.Verdicts.{assign_ruling, decided, manager_checks, property_checks, property_ruling, rent_ruling};

use crate::checks::{found_already, may_manage};
use dh_books::Books;
use dh_model::{Change, Verdict};
use dh_types::{Assignment, Id, Property, Refusal, RentChange, Reply, field};
use std::alloc::{AllocError, Global};

// The first check that a new property fails.
fn property_refusal(books: &Books, property: &Property) -> Option<Refusal>
    ensures { result ≡ first_failing (property_checks books.now.books property.now) }
{
    if books.owner(&property.owner).is_none() {
        return Some(Refusal::Unknown(field::PROPERTY_OWNER));
    }
    if let Some(member) = &property.staff
        && books.member(member).is_none()
    {
        return Some(Refusal::Unknown(field::PROPERTY_STAFF));
    }
    if books.branch(&property.branch).is_none() {
        return Some(Refusal::Unknown(field::PROPERTY_BRANCH));
    }
    let Some(member) = &property.staff else {
        return None;
    };
    may_manage(books, member, property)
}

/// What the books say of a new property, which has an owner, a branch and maybe a manager of that branch, with fewer
/// than 100 others.
pub(crate) fn decide_property(
    alloc: Global,
    books: &Books,
    property: &Property,
) -> Result<Verdict, AllocError>
    ensures { IfOk result (λ v. v ≡ decided (property_ruling books.now.books property.now)) }
{
    match books.property(&property.number) {
        None => match property_refusal(books, property) {
            Some(refusal) => Ok(Verdict::Refused(refusal)),
            None => Ok(Verdict::Change(Change::Property(property.try_clone(alloc)?))),
        },
        Some(there) => Ok(found_already(property == there)),
    }
}

// The first check that the manager fails, if one is given.
fn manager_refusal(books: &Books, property: &Property, member: Option<Id>) -> Option<Refusal>
    ensures { result ≡ first_failing (manager_checks books.now.books (Some property.now) member) }
{
    let Some(member) = member else {
        return None;
    };
    if books.member(&member).is_none() {
        return Some(Refusal::Unknown(field::ASSIGNED_STAFF));
    }
    may_manage(books, &member, property)
}

/// What the books say of a property's manager, who belongs to its branch and manages fewer than 100 others.
pub(crate) fn decide_assign(books: &Books, assignment: &Assignment) -> Verdict
    ensures { result ≡ decided (assign_ruling books.now.books assignment.now) }
{
    let Some(property) = books.property(&assignment.property) else {
        return Verdict::Refused(Refusal::Unknown(field::CHANGED_PROPERTY));
    };
    if assignment.staff == property.staff {
        return Verdict::Already(Reply::Already);
    }
    match manager_refusal(books, property, assignment.staff) {
        Some(refusal) => Verdict::Refused(refusal),
        None => Verdict::Change(Change::Assign(*assignment)),
    }
}

/// What the books say of a property's rent.
pub(crate) fn decide_rent(books: &Books, change: &RentChange) -> Verdict
    ensures { result ≡ decided (rent_ruling books.now.books change.now) }
{
    match books.property(&change.property) {
        None => Verdict::Refused(Refusal::Unknown(field::CHANGED_PROPERTY)),
        Some(property) if change.rent == property.rent => Verdict::Already(Reply::Already),
        Some(_) => Verdict::Change(Change::Rent(*change)),
    }
}
