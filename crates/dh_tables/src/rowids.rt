//! Rowids that were shown: whole numbers, none twice.

ghost use Rattle.std.specs.Prelude.{◌≡◌, ◌↔◌, true, false, map, IfNone, IfOk, IfSome};
ghost use Rattle.std.specs.List.Sorted.{IsStrictlySortedBy};
ghost use Rattle.std.specs.Ordering.{int_cmp};
ghost use Rattle.sqlite_value.specs.declared.value.Value.TheVariants.{Int};
ghost use Rattle.sqlite_trees.specs.Tree.{rowid};
ghost use Rattle.sqlite_trees.specs.View.{is_int};
ghost use Rattle.dh_tables.specs.Listing.{AreNumbered, AreWhole};

use sqlite::Row;
use sqlite::types::ValueRef;
use std::alloc::{AllocError, Global};

// The whole number that the row shows first; None where it shows none.
fn first_number(row: &Row) -> Option<i64>
    ensures number { IfSome result (λ number. rowid row.now ≡ Int number) }
    ensures none { IfNone result (is_int (rowid row.now) ≡ false) }
{
    match row.get_ref(0) {
        Ok(ValueRef::Int(number)) => Some(number),
        _ => None,
    }
}

// What the rows show first; None where one shows no whole number.
fn first_numbers(alloc: Global, rows: &[Row]) -> Result<Option<Vec<i64>>, AllocError>
    ensures numbers { IfOk result (λ found. IfSome found (λ numbers. map Int numbers.items ≡ map rowid rows.now)) }
    ensures none { IfOk result (λ found. IfNone found (¬ AreWhole rows.now)) }
{
    let mut numbers = Vec::new(alloc);
    for row in rows {
        let Some(number) = first_number(row) else {
            return Ok(None);
        };
        numbers.push(number)?;
    }
    Ok(Some(numbers))
}

// Whether each number is above the one before it.
fn rise(numbers: &[i64]) -> bool
    ensures { (result ≡ true) ↔ IsStrictlySortedBy int_cmp numbers.now }
{
    for at in 1..numbers.len() {
        if numbers[at] <= numbers[at - 1] {
            return false;
        }
    }
    true
}

/// Whether each row shows a whole number first, and no two rows the same.
pub(crate) fn are_numbered(alloc: Global, rows: &[Row]) -> Result<bool, AllocError>
    ensures { IfOk result (λ numbered. (numbered ≡ true) ↔ AreNumbered rows.now) }
{
    let Some(mut numbers) = first_numbers(alloc, rows)? else {
        return Ok(false);
    };
    numbers.sort_unstable();
    Ok(rise(&numbers))
}
