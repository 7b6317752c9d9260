//! Properties that no lease covers, and those of them that a client would take.

ghost use Rattle.std.specs.Prelude.{◌≡◌, ℕ, ◌&&◌, nat_le, not, if◌then◌else◌, List, Some, None, IfOk, OnOk};
ghost use Rattle.std.specs.Option.{option_or};
ghost use Rattle.std.specs.Ordering.{nat_cmp};
ghost use Rattle.std.specs.List.{filter};
ghost use Rattle.std.specs.FinMap as fin;
ghost use Rattle.std.specs.BTreeMap as tree;
ghost use Rattle.std.specs.BTreeMap.{is_at};
ghost use Rattle.std.specs.BTreeSet as set;
ghost use Rattle.dh_types.specs.declared.property.Property.{Property};
ghost use Rattle.dh_types.specs.Records.{is_same_property_type};
ghost use Rattle.dh_model.specs.Books.{pair_cmp, text_cmp};
ghost use Rattle.dh_model.specs.Answers.{by_rent, is_vacant, matches, matching, vacant};

use dh_books::Books;
use dh_leases::covers;
use dh_types::{Client, Day, Id, Property, Rent};
use std::alloc::{AllocError, Global};
use std::collections::{BTreeMap, BTreeSet};

// The numbers of the properties that some lease covers that day.
fn covered(alloc: Global, books: &Books, day: Day) -> Result<BTreeSet<Id>, AllocError>
    ensures { IfOk result (λ numbers. (property : Property) →
        not (set.contains text_cmp numbers property.number) ≡ is_vacant books.now.books day property) }
{
    let mut numbers = BTreeSet::new(alloc);
    for lease in books.leases() {
        if covers(&books.running(lease), day) {
            let _is_new = numbers.insert(lease.terms.property)?;
        }
    }
    Ok(numbers)
}

/// The properties that no lease covers that day, rising by number, moved out of the books. It fails where memory runs out.
pub fn vacant(alloc: Global, books: Books, day: Day) -> Result<Vec<Property>, AllocError>
    ensures { IfOk result (λ rows. rows.items ≡ vacant books.books day) }
{
    let covered = covered(alloc, &books, day)?;
    let mut rows = Vec::new(alloc);
    for (_, property) in books.into_properties() {
        if !covered.contains(&property.number) {
            rows.push(property)?;
        }
    }
    Ok(rows)
}

// Whether the client would take the property, where a lease covers these.
fn is_match(property: &Property, client: &Client, covered: &BTreeSet<Id>) -> bool
    ensures { result ≡ (is_same_property_type property.now.property_type client.now.preferred_type
        && nat_le property.now.rent client.now.greatest_rent
        && not (set.contains text_cmp covered.now property.now.number)) }
{
    property.property_type == client.preferred_type
        && property.rent <= client.greatest_rent
        && !covered.contains(&property.number)
}

// Puts the property under its rent and number, where none stands there.
fn put_first(
    found: &mut BTreeMap<(Rent, Id), Property>,
    property: Property,
) -> Result<(), AllocError>
    ensures { OnOk result ((key : ℕ × List ℕ) →
        tree.get (pair_cmp nat_cmp text_cmp) found.new key ≡ option_or (tree.get (pair_cmp nat_cmp text_cmp) found.old key)
        (if is_at (pair_cmp nat_cmp text_cmp key) (property.rent, property.number) then Some property else None)) }
{
    let key = (property.rent, property.number);
    if !found.contains_key(&key) {
        let _before = found.insert(key, property)?;
    }
    Ok(())
}

// The properties that match, by rent and number. Of two that share these it is the first.
fn by_rent(
    alloc: Global,
    books: Books,
    client: &Client,
    day: Day,
) -> Result<BTreeMap<(Rent, Id), Property>, AllocError>
    ensures { IfOk result (λ found. fin.from_entries found.entries
        ≡ by_rent books.books (filter (matches books.books client.now day) (fin.values books.books.properties))) }
{
    let covered = covered(alloc, &books, day)?;
    let mut found = BTreeMap::new(alloc);
    for (_, property) in books.into_properties() {
        if is_match(&property, client, &covered) {
            put_first(&mut found, property)?;
        }
    }
    Ok(found)
}

/// The properties of the client's preferred type, at no more than the client's greatest rent, that no lease covers that day:
/// rising by rent, and then by number, moved out of the books. It fails where memory runs out.
pub fn matching(
    alloc: Global,
    books: Books,
    client: &Client,
    day: Day,
) -> Result<Vec<Property>, AllocError>
    ensures { IfOk result (λ rows. rows.items ≡ matching books.books client.now day) }
{
    let found = by_rent(alloc, books, client, day)?;
    found
        .into_iter()
        .map(|(_, property)| property)
        .collect(alloc)
}
