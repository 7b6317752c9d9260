//! Lists of rows.

ghost use Rattle.std.specs.Prelude.{◌≡◌, IfOk};
ghost use Rattle.std.specs.FinMap as fin;

use dh_books::Books;
use dh_types::Branch;
use std::alloc::{AllocError, Global};

/// All branches, rising by number, moved out of the books. It fails where memory runs out.
pub fn branches(alloc: Global, books: Books) -> Result<Vec<Branch>, AllocError>
    ensures { IfOk result (λ rows. rows.items ≡ fin.values books.books.branches) }
{
    books
        .into_branches()
        .map(|(_, branch)| branch)
        .collect(alloc)
}
