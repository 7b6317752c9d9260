//! Laws of rows: each function does nothing, and its clause is the law.

ghost use Rattle.std.specs.Prelude.{◌≡◌, true};

use crate::Record;

/// Records of one row are one.
pub fn rows_determine_records<R: Record>()
    ensures { (a b : R) → R.is_row (R.Record.row a) ≡ true → R.Record.row a ≡ R.Record.row b → a ≡ b }
{}
