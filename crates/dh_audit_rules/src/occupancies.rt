//! What leases cover of their properties, as long as they run.

ghost use Rattle.std.specs.Prelude.{◌≡◌, ◌↔◌, true, IfOk};
ghost use Rattle.std.specs.List.{All, IsAllAdjacentAnswer};
ghost use Rattle.std.specs.List.Sorted.{IsPermutation, IsSortedByKey};
ghost use Rattle.std.specs.Ordering.{nat_cmp};
ghost use Rattle.dh_model.specs.Books.{pair_cmp, text_cmp};
ghost use Rattle.dh_model.specs.Rules.{LeasesNeverOverlap};
ghost use Rattle.dh_audit_rules.specs.Occupancies.{IsSound, makes_way, stay_key, stay_of, stays_on};

use dh_books::Books;
use dh_leases::end_of;
use dh_types::{Day, Id, LeaseTerms};
use std::alloc::{AllocError, Global};

// What a lease covers of its property: from the start on, and before the end.
#[derive(Clone, Copy)]
struct Occupancy {
    property: Id,
    start: Day,
    end: Day,
}

impl Occupancy {
    // What a lease of these terms covers.
    fn of(terms: &LeaseTerms) -> Occupancy
        ensures value { result ≡ stay_of terms.now }
        ensures sound { IsSound result }
    {
        Occupancy {
            property: terms.property,
            start: terms.start.day(),
            end: end_of(terms),
        }
    }
}

// The stays of all leases.
fn stays(alloc: Global, books: &Books) -> Result<Vec<Occupancy>, AllocError>
    ensures rows { IfOk result (λ stays. stays.items ≡ stays_on books.now.books) }
    ensures sound { IfOk result (λ stays. All IsSound stays.items) }
{
    let mut stays = Vec::new(alloc);
    for lease in books.leases() {
        stays.push(Occupancy::of(&books.running(lease)))?;
    }
    Ok(stays)
}

// The stays of all leases, rising by property, and then by start.
fn sorted_stays(alloc: Global, books: &Books) -> Result<Vec<Occupancy>, AllocError>
    ensures rows { IfOk result (λ stays. IsPermutation (stays_on books.now.books) stays.items) }
    ensures sound { IfOk result (λ stays. All IsSound stays.items) }
    ensures sorted { IfOk result (λ stays. IsSortedByKey stay_key (pair_cmp text_cmp nat_cmp) stays.items) }
{
    let mut stays = stays(alloc, books)?;
    stays.sort_unstable_by_key(|stay| (stay.property, stay.start));
    Ok(stays)
}

// Whether each stay is of another property than the next, or ends before that starts.
fn follow_each_other(stays: &Vec<Occupancy>) -> bool
    ensures { IsAllAdjacentAnswer (λ stay next free. free ≡ makes_way stay next) stays.now.items result }
{
    stays.is_sorted_by(|stay, next| stay.property != next.property || stay.end <= next.start)
}

/// Whether no two leases of one property cover a common day. It fails where memory runs out.
pub fn leases_never_overlap(alloc: Global, books: &Books) -> Result<bool, AllocError>
    ensures { IfOk result (λ holds. (holds ≡ true) ↔ LeasesNeverOverlap books.now.books) }
{
    let stays = sorted_stays(alloc, books)?;
    Ok(follow_each_other(&stays))
}
