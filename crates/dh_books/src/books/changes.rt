//! What changes in place: the next month, the open run, and one field of a row.

ghost use Rattle.std.specs.Prelude.{◌≡◌, Some};
ghost use Rattle.dh_model.specs.declared.rows.Change.TheVariants as change;
ghost use Rattle.dh_model.specs.Machine.{changed};

use super::Books;
use dh_model::OpenRun;
use dh_types::{
    Assignment, Comment, Id, Month, Property, Rent, RentChange, Viewing, ViewingComment,
};

fn put_manager(property: &mut Property, staff: Option<Id>)
    ensures { property.new ≡ record property.old { staff = staff } }
{
    property.staff = staff;
}

fn put_rent(property: &mut Property, rent: Rent)
    ensures { property.new ≡ record property.old { rent = rent } }
{
    property.rent = rent;
}

fn put_comment(viewing: &mut Viewing, comment: Comment)
    ensures { viewing.new ≡ record viewing.old { comment = Some comment } }
{
    viewing.comment = Some(comment);
}

impl Books {
    /// The property gets this manager, or none. Nothing changes where it is not there.
    pub fn assign(&mut self, it: Assignment)
        ensures { self.new ≡ record self.old { books = changed (change.Assign it) self.old.books } }
    {
        let Some(property) = self.properties.get_mut(&it.property) else {
            return;
        };
        put_manager(property, it.staff);
    }

    /// The property gets this rent. Nothing changes where it is not there.
    pub fn set_rent(&mut self, it: RentChange)
        ensures { self.new ≡ record self.old { books = changed (change.Rent it) self.old.books } }
    {
        let Some(property) = self.properties.get_mut(&it.property) else {
            return;
        };
        put_rent(property, it.rent);
    }

    /// The viewing gets this comment. Nothing changes where it is not there.
    pub fn set_comment(&mut self, it: ViewingComment)
        ensures { self.new ≡ record self.old { books = changed (change.Comment it) self.old.books } }
    {
        let key = (it.client, it.property);
        let Some(viewing) = self.viewings.get_mut(&key) else {
            return;
        };
        put_comment(viewing, it.comment);
    }

    /// From now on this is the month whose rent is to be run next.
    pub fn set_next(&mut self, next: Month)
        ensures { self.new ≡ record self.old { books = record self.old.books { next = next } } }
    {
        self.next = next;
    }

    /// From now on this run is under way, or none is.
    pub fn set_open_run(&mut self, run: Option<OpenRun>)
        ensures { self.new ≡ record self.old { open_run = run } }
    {
        self.open_run = run;
    }
}
