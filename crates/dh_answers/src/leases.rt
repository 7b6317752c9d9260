//! Leases.

ghost use Rattle.std.specs.Prelude.{◌≡◌, [], ◌∷◌};
ghost use Rattle.std.specs.FinMap as fin;
ghost use Rattle.dh_types.specs.declared.reply.Refusal.TheVariants as refusal;
ghost use Rattle.dh_model.specs.Checks.{at_most, first_failing, in_time, least_overlapping, least_that_day, none_found, unless};
ghost use Rattle.dh_model.specs.Verdicts.{decided, lease_ruling};

use crate::checks::found_already;
use dh_books::Books;
use dh_leases::overlap;
use dh_model::{Change, Verdict};
use dh_types::{EntryDay, Id, Lease, LeaseNo, LeaseTerms, Refusal, field};

// The lesser of the number and the least so far.
fn at_most(least: Option<LeaseNo>, number: LeaseNo) -> LeaseNo
    ensures { result ≡ at_most least number }
{
    match least {
        Some(least) => least.min(number),
        None => number,
    }
}

// The least number of a lease of the client that starts that day.
fn lease_that_day(books: &Books, client: &Id, day: EntryDay) -> Option<LeaseNo>
    ensures { result ≡ least_that_day books.now.books client.now day }
{
    books
        .leases()
        .filter(|lease| lease.terms.client == *client && lease.terms.start == day)
        .map(|lease| lease.terms.number)
        .fold(None, |least, number| Some(at_most(least, number)))
}

// The least number of a lease that overlaps these terms, as long as it runs.
fn overlapping(books: &Books, terms: &LeaseTerms) -> Option<LeaseNo>
    ensures { result ≡ least_overlapping books.now.books terms.now }
{
    books
        .leases()
        .filter(|lease| overlap(terms, &books.running(lease)))
        .map(|lease| lease.terms.number)
        .fold(None, |least, number| Some(at_most(least, number)))
}

// The first check that the terms fail, for a property of this branch.
fn signing_refusal(books: &Books, terms: &LeaseTerms, branch: &Id) -> Option<Refusal>
    ensures { result ≡ first_failing (unless (fin.contains_key books.now.books.registrations (terms.now.client, branch.now)) refusal.NotRegistered
        ∷ in_time books.now.books terms.now.start ∷ none_found refusal.ClientStart (least_that_day books.now.books terms.now.client terms.now.start)
        ∷ none_found refusal.Overlap (least_overlapping books.now.books terms.now) ∷ []) }
{
    if books.registration(&(terms.client, *branch)).is_none() {
        return Some(Refusal::NotRegistered);
    }
    let next = books.next();
    if terms.start.day().month() < next {
        return Some(Refusal::MonthPosted(next));
    }
    if let Some(lease) = lease_that_day(books, &terms.client, terms.start) {
        return Some(Refusal::ClientStart(lease));
    }
    overlapping(books, terms).map(|lease| Refusal::Overlap(lease))
}

/// What the books say of a new lease: its terms at the rent that its property has.
pub(crate) fn decide_lease(books: &Books, terms: &LeaseTerms) -> Verdict
    ensures { result ≡ decided (lease_ruling books.now.books terms.now) }
{
    if let Some(there) = books.lease(&terms.number) {
        return found_already(*terms == there.terms);
    }
    if books.client(&terms.client).is_none() {
        return Verdict::Refused(Refusal::Unknown(field::LEASE_CLIENT));
    }
    let Some(property) = books.property(&terms.property) else {
        return Verdict::Refused(Refusal::Unknown(field::LEASE_PROPERTY));
    };
    match signing_refusal(books, terms, &property.branch) {
        Some(refusal) => Verdict::Refused(refusal),
        None => Verdict::Change(Change::Lease(Lease {
            terms: *terms,
            rent: property.rent,
        })),
    }
}
