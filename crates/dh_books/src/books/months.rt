//! What the books have of one month.

ghost use Rattle.std.specs.Prelude.{◌≡◌, not, nat_eq};
ghost use Rattle.dh_model.specs.Whole.{rows_where};

use super::Books;
use dh_types::EntryMonth;

impl Books {
    /// Takes out the charges of the month.
    pub fn clear_month_charges(&mut self, month: EntryMonth)
        ensures { self.new ≡ record self.old {
          books = record self.old.books { charges = rows_where (λ charge. not (nat_eq charge.month month)) self.old.books.charges };
        } }
    {
        self.charges.retain(|_, charge| charge.month != month);
    }

    /// Takes out the parts of the month.
    pub fn clear_month_parts(&mut self, month: EntryMonth)
        ensures { self.new ≡ record self.old {
          books = record self.old.books { parts = rows_where (λ part. not (nat_eq part.month month)) self.old.books.parts };
        } }
    {
        self.parts.retain(|_, part| part.month != month);
    }

    /// Takes out the fee rows of the month.
    pub fn clear_month_fees(&mut self, month: EntryMonth)
        ensures { self.new ≡ record self.old {
          books = record self.old.books { part_fees = rows_where (λ it. not (nat_eq it.month month)) self.old.books.part_fees };
        } }
    {
        self.part_fees.retain(|_, it| it.month != month);
    }
}
