//! Whether values stand once.

ghost use Rattle.std.specs.Prelude.{◌≡◌, ◌↔◌, true, IfOk};
ghost use Rattle.std.specs.List.{IsDistinct};
ghost use Rattle.std.specs.Ordering.{eq_by_cmp};

use std::alloc::{AllocError, Global};
use std::collections::BTreeSet;

/// Whether no two of the values are the same. It fails where memory runs out.
pub(crate) fn are_distinct<T: Ord + Drop>(alloc: Global, values: Vec<T>) -> Result<bool, AllocError>
    ensures { IfOk result (λ distinct. (distinct ≡ true) ↔ IsDistinct (eq_by_cmp T.cmp) values.items) }
{
    let count = values.len();
    let set: BTreeSet<T> = values.into_iter().collect(alloc)?;
    Ok(set.len() == count)
}
