//! Members of staff: whose branch they are of, and how much they manage.

ghost use Rattle.std.specs.Prelude.{◌≡◌, ◌↔◌, ◌≤◌, ℕ, ◌+◌, ◌^◌, ◌<◌, true, if◌then◌else◌, List, IfOk, IfSome, OnOk};
ghost use Rattle.std.specs.FinMap as fin;
ghost use Rattle.dh_model.specs.declared.limits.TheConstants.{MANAGED_AT_MOST};
ghost use Rattle.dh_model.specs.Checks.{is_same_text, works_at};
ghost use Rattle.dh_model.specs.Rules.{Each, ManagesAtMostHundred, StaffOfTheBranch, managed_by};
ghost use Rattle.dh_audit_rules.specs.Counts.{count_at};

use dh_books::Books;
use dh_model::MANAGED_AT_MOST;
use dh_types::{Id, Property};
use std::alloc::{AllocError, Global};
use std::collections::BTreeMap;

// Whether the member of staff is there and belongs to the branch.
fn works_at(books: &Books, member: &Id, branch: &Id) -> bool
    ensures { result ≡ works_at branch.now (fin.get books.now.books.staff member.now) }
{
    match books.member(member) {
        Some(member) => member.branch == *branch,
        None => false,
    }
}

// Whether the property's manager, if any, belongs to its branch.
fn manager_works_there(books: &Books, property: &Property) -> bool
    ensures { (result ≡ true) ↔ IfSome property.now.staff (λ member. works_at property.now.branch (fin.get books.now.books.staff member) ≡ true) }
{
    match &property.staff {
        Some(member) => works_at(books, member, &property.branch),
        None => true,
    }
}

/// Whether each manager belongs to the property's branch, and each registrar to the registration's.
pub fn staff_of_the_branch(books: &Books) -> bool
    ensures { (result ≡ true) ↔ StaffOfTheBranch books.now.books }
{
    books.properties().all(|it| manager_works_there(books, it))
        && books
            .registrations()
            .all(|it| works_at(books, &it.staff, &it.branch))
}

// How many properties stand under the member of staff.
fn count_at(counts: &BTreeMap<Id, u64>, member: &Id) -> u64
    ensures { result ≡ count_at counts.now member.now }
{
    counts.get(member).copied().unwrap_or(0)
}

// One more property of the member of staff.
fn add(counts: &mut BTreeMap<Id, u64>, member: Id) -> Result<(), AllocError>
    requires { count_at counts.old member + 1 < 2 ^ 64 }
    ensures { OnOk result ((other : List ℕ) → count_at counts.new other ≡ count_at counts.old other + (if is_same_text member other then 1 else 0)) }
{
    let count = count_at(counts, &member) + 1;
    let _before = counts.insert(member, count)?;
    Ok(())
}

// How many properties each member of staff manages.
fn managed(alloc: Global, books: &Books) -> Result<BTreeMap<Id, u64>, AllocError>
    ensures { IfOk result (λ counts. (member : List ℕ) → count_at counts member ≡ managed_by books.now.books member) }
{
    let properties = books.properties();
    // No more than this many, so that their count fits.
    let _count = properties.len();
    let mut counts = BTreeMap::new(alloc);
    for property in properties {
        if let Some(member) = property.staff {
            add(&mut counts, member)?;
        }
    }
    Ok(counts)
}

/// Whether no member of staff manages more properties than one may. It fails where memory runs out.
pub fn manages_at_most_hundred(alloc: Global, books: &Books) -> Result<bool, AllocError>
    ensures { IfOk result (λ holds. (holds ≡ true) ↔ ManagesAtMostHundred books.now.books) }
{
    let counts = managed(alloc, books)?;
    Ok(books.staff().all(|member| count_at(&counts, &member.number) <= MANAGED_AT_MOST))
}
