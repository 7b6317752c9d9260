//! What a row names is there.

ghost use Rattle.std.specs.Prelude.{◌≡◌, ◌↔◌, true, IfSome};
ghost use Rattle.dh_model.specs.Kinds.{Kind};
ghost use Rattle.dh_model.specs.Rules.{Each, IsThere, NamesWhatIsThere, Refers};

use dh_books::Books;
use dh_types::{Inspection, Lease, Part, Property, Registration, Viewing};

// Whether the property's manager, if any, is there.
fn manager_is_there(books: &Books, property: &Property) -> bool
    ensures { (result ≡ true) ↔ IfSome property.now.staff (λ member. IsThere books.now.books.staff member) }
{
    match &property.staff {
        Some(member) => books.member(member).is_some(),
        None => true,
    }
}

// Whether what the property names is there.
fn property_refers(books: &Books, property: &Property) -> bool
    ensures { (result ≡ true) ↔ Refers books.now.books Kind.Properties property.now }
{
    books.owner(&property.owner).is_some()
        && manager_is_there(books, property)
        && books.branch(&property.branch).is_some()
}

// Whether what the registration names is there.
fn registration_refers(books: &Books, registration: &Registration) -> bool
    ensures { (result ≡ true) ↔ Refers books.now.books Kind.Registrations registration.now }
{
    books.client(&registration.client).is_some()
        && books.branch(&registration.branch).is_some()
        && books.member(&registration.staff).is_some()
}

// Whether what the viewing names is there.
fn viewing_refers(books: &Books, viewing: &Viewing) -> bool
    ensures { (result ≡ true) ↔ Refers books.now.books Kind.Viewings viewing.now }
{
    books.client(&viewing.client).is_some() && books.property(&viewing.property).is_some()
}

// Whether what the inspection names is there.
fn inspection_refers(books: &Books, inspection: &Inspection) -> bool
    ensures { (result ≡ true) ↔ Refers books.now.books Kind.Inspections inspection.now }
{
    books.property(&inspection.property).is_some() && books.member(&inspection.staff).is_some()
}

// Whether what the lease names is there, and its client is registered at its property's branch.
fn lease_refers(books: &Books, lease: &Lease) -> bool
    ensures { (result ≡ true) ↔ Refers books.now.books Kind.Leases lease.now }
{
    let client = lease.terms.client;
    let Some(property) = books.property(&lease.terms.property) else {
        return false;
    };
    books.client(&client).is_some() && books.registration(&(client, property.branch)).is_some()
}

// Whether the part row's run and branch are there.
fn part_refers(books: &Books, part: &Part) -> bool
    ensures { (result ≡ true) ↔ Refers books.now.books Kind.Parts part.now }
{
    books.run(&part.month).is_some() && books.branch(&part.branch).is_some()
}

/// Whether all that the rows name is there, and each lease's client is registered at the branch of its property.
pub fn names_what_is_there(books: &Books) -> bool
    ensures { (result ≡ true) ↔ NamesWhatIsThere books.now.books }
{
    // Joined by `&`: of sound books each is asked anyway, and so there is one answer to prove.
    books.staff().all(|it| books.branch(&it.branch).is_some())
        & books.properties().all(|it| property_refers(books, it))
        & books
            .registrations()
            .all(|it| registration_refers(books, it))
        & books.viewings().all(|it| viewing_refers(books, it))
        & books.inspections().all(|it| inspection_refers(books, it))
        & books.leases().all(|it| lease_refers(books, it))
        & books.charges().all(|it| books.lease(&it.lease).is_some())
        & books
            .receipts()
            .all(|it| books.lease(&it.payment.lease).is_some())
        & books.parts().all(|it| part_refers(books, it))
        & books
            .branch_fees()
            .all(|it| books.branch(&it.branch).is_some())
        & books.part_fees().all(|it| books.part(&it.key()).is_some())
        & books.endings().all(|it| books.lease(&it.lease).is_some())
}
