//! Whether two lists have the same elements.

ghost use Rattle.std.specs.Prelude.{◌≡◌, ◌↔◌, true, IfOk};
ghost use Rattle.std.specs.FinMap.{IsAntisymmetric};
ghost use Rattle.dh_model.specs.Rules.{HaveTheSame};

use std::alloc::{AllocError, Global};
use std::collections::BTreeSet;

/// Whether the lists have the same elements, in whatever order and number. It fails where memory runs out.
pub(crate) fn have_the_same<T: Ord + Drop>(
    alloc: Global,
    left: Vec<T>,
    right: Vec<T>,
) -> Result<bool, AllocError>
    ensures { IfOk result (λ same. IsAntisymmetric T.cmp → (same ≡ true) ↔ HaveTheSame left.items right.items) }
{
    let left: BTreeSet<T> = left.into_iter().collect(alloc)?;
    let right: BTreeSet<T> = right.into_iter().collect(alloc)?;
    Ok(left.is_subset(&right) && right.is_subset(&left))
}
