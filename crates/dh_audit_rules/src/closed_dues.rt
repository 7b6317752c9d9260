//! All that ever falls due, with the branches that it falls to.

ghost use Rattle.std.specs.Prelude.{◌≡◌, ◌++◌, map, IfOk, OnOk};
ghost use Rattle.std.specs.FinMap as fin;
ghost use Rattle.dh_model.specs.Leases.{dues_of};
ghost use Rattle.dh_audit_rules.specs.ClosedMonths.{all_dues, branch_in, due_at};

use dh_books::Books;
use dh_leases::due_in;
use dh_types::{Charge, Id, Lease, Month};
use std::alloc::{AllocError, Global};

// What falls due on a lease, and the branch of its property, if that is there.
#[derive(Clone, Copy)]
pub(crate) struct Due {
    pub(crate) charge: Charge,
    pub(crate) branch: Option<Id>,
}

// The branch of the lease's property, if that is there.
pub(crate) fn branch_of(books: &Books, lease: &Lease) -> Option<Id>
    ensures { result ≡ branch_in (fin.get books.now.books.properties lease.now.terms.property) }
{
    let property = books.property(&lease.terms.property)?;
    Some(property.branch)
}

// Adds all that falls due on the lease, as long as it runs.
fn add_dues(
    dues: &mut Vec<Due>,
    books: &Books,
    lease: &Lease,
    branch: &Option<Id>,
) -> Result<(), AllocError>
    ensures { OnOk result (dues.new.items ≡ dues.old.items ++ map (due_at branch.now) (dues_of books.now.books.endings lease.now)) }
{
    let first = lease.terms.start.day().month().number();
    for index in 0..books.length_of(lease).number() {
        let month = Month::of_number(first + index);
        if let Some(charge) = due_in(books, lease, month) {
            dues.push(Due {
                charge,
                branch: *branch,
            })?;
        }
    }
    Ok(())
}

// All that ever falls due, lease by lease.
pub(crate) fn all_dues(alloc: Global, books: &Books) -> Result<Vec<Due>, AllocError>
    ensures { IfOk result (λ dues. dues.items ≡ all_dues books.now.books) }
{
    let mut dues = Vec::new(alloc);
    for lease in books.leases() {
        add_dues(&mut dues, books, lease, &branch_of(books, lease))?;
    }
    Ok(dues)
}
