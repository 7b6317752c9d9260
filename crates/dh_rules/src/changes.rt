//! The rows of a change, put into the books.

ghost use Rattle.std.specs.Prelude.{◌≡◌, OnOk};
ghost use Rattle.dh_model.specs.Machine.{changed};

use dh_books::Books;
use dh_model::Change;
use std::alloc::AllocError;

/// Puts the rows of the change into the books. An error may leave them changed in part.
pub fn apply_change(books: &mut Books, change: Change) -> Result<(), AllocError>
    ensures { OnOk result (books.new ≡ record books.old { books = changed change books.old.books }) }
{
    match change {
        Change::Branch(it) => books.put_branch(it),
        Change::NewFee(it) | Change::Fee(it) => books.put_branch_fee(it),
        Change::Staff(it) => books.put_member(it),
        Change::Owner(it) => books.put_owner(it),
        Change::Property(it) => books.put_property(it),
        Change::Assign(it) => {
            books.assign(it);
            Ok(())
        }
        Change::Rent(it) => {
            books.set_rent(it);
            Ok(())
        }
        Change::Client(it) => books.put_client(it),
        Change::Register(it) => books.put_registration(it),
        Change::Viewing(it) => books.put_viewing(it),
        Change::Comment(it) => {
            books.set_comment(it);
            Ok(())
        }
        Change::Inspection(it) => books.put_inspection(it),
        Change::Lease(it) => books.put_lease(it),
        Change::NewEnding(it) | Change::Ending(it) => books.put_ending(it),
        Change::Receipt(it) => books.put_receipt(it),
        Change::Open(it) => {
            let next = it.month.month().next().unwrap();
            books.put_run(it)?;
            books.set_next(next);
            Ok(())
        }
        Change::Post => Ok(()),
    }
}
