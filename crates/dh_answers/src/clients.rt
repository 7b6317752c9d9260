//! Clients, their registrations and viewings, and inspections.

ghost use Rattle.std.specs.Prelude.{◌≡◌, [], ◌∷◌, IfOk};
ghost use Rattle.dh_model.specs.Checks.{first_failing};
ghost use Rattle.dh_model.specs.Verdicts.{client_ruling, comment_ruling, decided, inspection_checks, inspection_ruling, register_ruling};
ghost use Rattle.dh_model.specs.Verdicts.{registration_checks, viewing_checks, viewing_ruling};

use crate::checks::{found_already, of_branch};
use dh_books::Books;
use dh_model::{Change, Verdict};
use dh_types::{Client, Inspection, Refusal, Registration, Reply, Viewing, ViewingComment, field};
use std::alloc::{AllocError, Global};

/// What the books say of a new client: its row; that it is there already; or that its number is taken.
pub(crate) fn decide_client(
    alloc: Global,
    books: &Books,
    client: &Client,
) -> Result<Verdict, AllocError>
    ensures { IfOk result (λ v. v ≡ decided (client_ruling books.now.books client.now)) }
{
    match books.client(&client.number) {
        None => Ok(Verdict::Change(Change::Client(client.try_clone(alloc)?))),
        Some(there) => Ok(found_already(client == there)),
    }
}

// The first check that a new registration fails.
fn registration_refusal(books: &Books, registration: &Registration) -> Option<Refusal>
    ensures { result ≡ first_failing (registration_checks books.now.books registration.now) }
{
    if books.client(&registration.client).is_none() {
        return Some(Refusal::Unknown(field::REGISTERED_CLIENT));
    }
    if books.branch(&registration.branch).is_none() {
        return Some(Refusal::Unknown(field::REGISTERED_BRANCH));
    }
    if books.member(&registration.staff).is_none() {
        return Some(Refusal::Unknown(field::REGISTERED_STAFF));
    }
    of_branch(books, &registration.staff, &registration.branch)
}

/// What the books say of a client's registration at a branch, by a member of its staff.
pub(crate) fn decide_register(books: &Books, registration: &Registration) -> Verdict
    ensures { result ≡ decided (register_ruling books.now.books registration.now) }
{
    match books.registration(&registration.key()) {
        None => match registration_refusal(books, registration) {
            Some(refusal) => Verdict::Refused(refusal),
            None => Verdict::Change(Change::Register(*registration)),
        },
        Some(there) => found_already(registration == there),
    }
}

// The first check that a new viewing fails.
fn viewing_refusal(books: &Books, viewing: &Viewing) -> Option<Refusal>
    ensures { result ≡ first_failing (viewing_checks books.now.books viewing.now) }
{
    if books.client(&viewing.client).is_none() {
        Some(Refusal::Unknown(field::VIEWING_CLIENT))
    } else if books.property(&viewing.property).is_none() {
        Some(Refusal::Unknown(field::VIEWING_PROPERTY))
    } else {
        None
    }
}

/// What the books say of a client's viewing of a property.
pub(crate) fn decide_viewing(
    alloc: Global,
    books: &Books,
    viewing: &Viewing,
) -> Result<Verdict, AllocError>
    ensures { IfOk result (λ v. v ≡ decided (viewing_ruling books.now.books viewing.now)) }
{
    match books.viewing(&viewing.key()) {
        None => match viewing_refusal(books, viewing) {
            Some(refusal) => Ok(Verdict::Refused(refusal)),
            None => Ok(Verdict::Change(Change::Viewing(viewing.try_clone(alloc)?))),
        },
        Some(there) => Ok(found_already(viewing == there)),
    }
}

/// What the books say of a comment on a viewing that is there.
pub(crate) fn decide_comment(
    alloc: Global,
    books: &Books,
    comment: &ViewingComment,
) -> Result<Verdict, AllocError>
    ensures { IfOk result (λ v. v ≡ decided (comment_ruling books.now.books comment.now)) }
{
    let Some(viewing) = books.viewing(&(comment.client, comment.property)) else {
        return Ok(Verdict::Refused(Refusal::Unknown(field::VIEWING_CLIENT)));
    };
    match &viewing.comment {
        Some(there) if comment.comment == *there => Ok(Verdict::Already(Reply::Already)),
        _ => Ok(Verdict::Change(Change::Comment(ViewingComment {
            client: comment.client,
            property: comment.property,
            comment: comment.comment.try_clone(alloc)?,
        }))),
    }
}

// The first check that a new inspection fails.
fn inspection_refusal(books: &Books, inspection: &Inspection) -> Option<Refusal>
    ensures { result ≡ first_failing (inspection_checks books.now.books inspection.now) }
{
    if books.property(&inspection.property).is_none() {
        Some(Refusal::Unknown(field::INSPECTED_PROPERTY))
    } else if books.member(&inspection.staff).is_none() {
        Some(Refusal::Unknown(field::INSPECTION_STAFF))
    } else {
        None
    }
}

/// What the books say of an inspection of a property, by a member of any staff.
pub(crate) fn decide_inspection(
    alloc: Global,
    books: &Books,
    inspection: &Inspection,
) -> Result<Verdict, AllocError>
    ensures { IfOk result (λ v. v ≡ decided (inspection_ruling books.now.books inspection.now)) }
{
    match books.inspection(&inspection.key()) {
        None => match inspection_refusal(books, inspection) {
            Some(refusal) => Ok(Verdict::Refused(refusal)),
            None => Ok(Verdict::Change(Change::Inspection(inspection.try_clone(alloc)?))),
        },
        Some(there) => Ok(found_already(inspection == there)),
    }
}
