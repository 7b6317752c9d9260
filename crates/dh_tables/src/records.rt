//! Records from rows into books.

ghost use Rattle.std.specs.Prelude.{◌≡◌, true, false, IfOk};
ghost use Rattle.std.specs.List.{AllByRecursion};
ghost use Rattle.dh_sql.specs.Gathered.{put_rows};

use crate::Tabled;
use dh_books::Books;
use sqlite::Row;
use std::alloc::{AllocError, Global};

/// Puts the records that the rows are into the books; false exactly where a row is none.
pub fn gather<R: Tabled>(alloc: Global, rows: &[Row], books: &mut Books) -> Result<bool, AllocError>
    ensures good { IfOk result (λ done. done ≡ true → AllByRecursion (λ row. R.is_row row ≡ true) rows.now) }
    ensures damaged { IfOk result (λ done. done ≡ false → ¬ AllByRecursion (λ row. R.is_row row ≡ true) rows.now) }
    ensures gathered { IfOk result (λ done. done ≡ true → books.new ≡ R.accessor.with books.old (put_rows R.shape rows.now (R.accessor.held books.old))) }
{
    for row in rows {
        let Some(record) = R::from_row(alloc, row)? else {
            return Ok(false);
        };
        record.put(books)?;
    }
    Ok(true)
}
