//! What falls due on leases.

ghost use Rattle.std.specs.Prelude.{◌≡◌, [], ◌∷◌, IfOk, option_to_list};
ghost use Rattle.dh_model.specs.Leases.{dues, dues_among};

use dh_books::Books;
use dh_types::{Charge, ChargeIndex, EntryMonth, Lease, Month};
use std::alloc::{AllocError, Global};

/// The charge of the lease that falls due in the month: the whole of its own rent, on the day that lies
/// as many months after the start. `None` where the lease has none in that month, as long as it runs in these books.
pub fn due_in(books: &Books, lease: &Lease, month: Month) -> Option<Charge>
    ensures { option_to_list result ≡ dues_among books.now.books.endings (lease.now ∷ []) month }
{
    let start = lease.terms.start.day();
    let months = books.length_of(lease).number();
    let index = month.number().checked_sub(start.month().number())?;
    if index >= months {
        return None;
    }
    Some(Charge {
        lease: lease.terms.number,
        index: ChargeIndex::of_number(index),
        month: EntryMonth::of_number(month.number()),
        day: start.plus_months(index).unwrap(),
        amount: lease.rent,
    })
}

/// What falls due in the month, rising by lease.
pub fn dues(alloc: Global, books: &Books, month: Month) -> Result<Vec<Charge>, AllocError>
    ensures { IfOk result (λ charges. charges.items ≡ dues books.now.books month) }
{
    let mut charges = Vec::new(alloc);
    for lease in books.leases() {
        if let Some(charge) = due_in(books, lease, month) {
            charges.push(charge)?;
        }
    }
    Ok(charges)
}
