//! What falls due in a month, branch by branch.

ghost use Rattle.std.specs.Prelude.{◌≡◌, ◌≤◌, ℕ, ◌++◌, ◌∷◌, [], if◌then◌else◌, length, List, IfOk, OnOk};
ghost use Rattle.std.specs.BTreeMap.{is_at};
ghost use Rattle.std.specs.FinMap.{values};
ghost use Rattle.dh_values.specs.declared.limits.TheConstants.{MOST_NUMBER};
ghost use Rattle.dh_model.specs.BatchLaws.{AreNumbered};
ghost use Rattle.dh_model.specs.Books.{text_cmp};
ghost use Rattle.dh_model.specs.Runs.{dues_of_branch};
ghost use Rattle.dh_leases.specs.Dues.{charges_at};

use crate::due_in;
use dh_books::Books;
use dh_types::{Charge, EntryMonth, Id};
use std::alloc::{AllocError, Global};
use std::collections::BTreeMap;

// Puts the charge behind those of the branch.
fn put_behind(
    alloc: Global,
    charges: &mut BTreeMap<Id, Vec<Charge>>,
    branch: Id,
    charge: Charge,
) -> Result<(), AllocError>
    ensures { OnOk result ((other : List ℕ) →
        charges_at charges.new other ≡ charges_at charges.old other ++ (if is_at (text_cmp branch) other then charge ∷ [] else [])) }
{
    let mut of_branch = charges.remove(&branch).unwrap_or(Vec::new(alloc));
    of_branch.push(charge)?;
    let _before = charges.insert(branch, of_branch)?;
    Ok(())
}

/// The month's dues by branch, each branch's rising by lease. It fails where memory runs out.
pub fn dues_by_branch(
    alloc: Global,
    books: &Books,
    month: EntryMonth,
) -> Result<BTreeMap<Id, Vec<Charge>>, AllocError>
    ensures value { IfOk result (λ dues. (branch : List ℕ) → charges_at dues branch ≡ dues_of_branch books.now.books month branch) }
    ensures numbered { IfOk result (λ _. AreNumbered books.now.books) }
    ensures few { IfOk result (λ _. length (values books.now.books.leases) ≤ MOST_NUMBER) }
{
    let mut dues = BTreeMap::new(alloc);
    for lease in books.leases() {
        let Some(charge) = due_in(books, lease, month.month()) else {
            continue;
        };
        let Some(property) = books.property(&lease.terms.property) else {
            continue;
        };
        put_behind(alloc, &mut dues, property.branch, charge)?;
    }
    Ok(dues)
}

/// The branch's charges, none where there are none.
pub fn of_branch<'a>(charges: &'a BTreeMap<Id, Vec<Charge>>, branch: &Id) -> &'a [Charge]
    ensures { result.now ≡ charges_at charges.now branch.now }
{
    match charges.get(branch) {
        Some(of_branch) => of_branch,
        None => &[],
    }
}
