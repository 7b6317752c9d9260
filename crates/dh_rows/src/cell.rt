//! Fields as the values of columns. Read `Cell` first.

ghost use Rattle.std.specs.Prelude.{◌≡◌, ◌↔◌, ◌<◌, ◌≤◌, ℕ, Bool, List, true, pos, length, IfOk, IfNone, IfSome, IsSome, IsTrue};
ghost use Rattle.sqlite.specs.Values.{bound_value};
ghost use Rattle.sqlite_value.specs.Order.{column};
ghost use Rattle.sqlite_value.specs.Value.{owned};
ghost use Rattle.sqlite_value.specs.declared.value.Value.{Value};
ghost use Rattle.sqlite_value.specs.declared.value.Value.TheVariants.{Null, Int, Text};
ghost use Rattle.dh_rows.specs.Cells.{IsTextCell, is_number_cell};

use sqlite::Row;
use sqlite::types::ValueRef;
use std::alloc::{AllocError, Global};
use std::str;

/// A field that a column keeps.
pub(crate) trait Cell: Sized {
    /// The value in the column.
    ghost cell: { Self → Value };

    /// Whether a value is of this kind.
    ghost is_cell: { Value → Bool };

    /// What the text has to be that `param` is given. A day takes its own text.
    ghost wants: { Self → List ℕ → Type 0 } = { λ _ _. Unit {0} };

    /// What the caller has to know of a field whose type holds more than the column keeps.
    ghost can_keep: { Self → Type 0 } = { λ _. Unit {0} };

    /// The field as a parameter of a statement, given the text of the record's day.
    fn param<'a>(&'a self, day: &'a [u8]) -> ValueRef<'a>
        requires { wants self.now day.now }
        ensures value { bound_value (owned result) ≡ cell self.now }
        ensures grammar { can_keep self.now → is_cell (cell self.now) ≡ true };

    /// The field that the column holds; None exactly where it holds no value of this kind.
    fn read_cell(alloc: Global, columns: &Row, at: usize) -> Result<Option<Self>, AllocError>
        requires { at < length columns.now }
        ensures read { IfOk result (λ found. IfSome found (λ field. column columns.now at ≡ cell field)) }
        ensures exact { IfOk result (λ found. IsSome found ↔ (is_cell (column columns.now at) ≡ true)) };
}

/// The text in the column, where it is text.
pub(crate) fn str_at(columns: &Row, at: usize) -> Option<&str>
    requires { at < length columns.now }
    ensures read { IfSome result (λ text. column columns.now at ≡ Text text.now) }
    ensures none { IfNone result (¬ IsTextCell (column columns.now at)) }
{
    match columns.get_ref(at) {
        Ok(ValueRef::Text(bytes)) => str::from_utf8(bytes).ok(),
        _ => None,
    }
}

/// The whole number in the column, where it is one in this range.
pub(crate) fn number_at(columns: &Row, at: usize, low: u32, high: u32) -> Option<u32>
    requires { at < length columns.now }
    ensures read { IfSome result (λ n. (column columns.now at ≡ Int (pos n)) × (low ≤ n) × (n ≤ high)) }
    ensures exact { IsSome result ↔ (is_number_cell low high (column columns.now at) ≡ true) }
{
    match columns.get_ref(at) {
        Ok(ValueRef::Int(n)) if n >= i64::from(low) && n <= i64::from(high) => Some(n as u32),
        _ => None,
    }
}

/// Whether the column holds nothing.
pub(crate) fn is_null_at(columns: &Row, at: usize) -> bool
    requires { at < length columns.now }
    ensures { IsTrue result ↔ (column columns.now at ≡ Null) }
{
    match columns.get_ref(at) {
        Ok(ValueRef::Null) => true,
        _ => false,
    }
}

/// The answer of `to_row`, by the record's columns.
macro_rules! write_row {
    ($given:tt $record:ident { $($column:ident),* $(,)? }) => {
        write_row!($given [$($column),*] $record { $($column),* })
    };
    (($this:expr, $alloc:expr, $day:expr) [$($column:ident),*] $($record:tt)*) => {{
        let $($record)* = $this;
        [$($crate::cell::Cell::param($column, $day)),*].to_vec($alloc)
    }};
}

pub(crate) use write_row;

/// The answer of `from_row`, by the record's columns, which are read in their order.
macro_rules! read_row {
    ($given:tt $record:ident { $($column:ident),* $(,)? }) => {
        read_row!($given [$($column),*] $record { $($column),* })
    };
    ($given:tt [$($column:ident),*] $($record:tt)*) => {
        read_row!(@ $given [$($column)*] [0 1 2 3 4 5 6 7 8 9 10] [] $($record)*)
    };
    (@ $given:tt [$column:ident $($columns:ident)*] [$at:literal $($more:literal)*] [$($read:tt)*] $($record:tt)*) => {
        read_row!(@ $given [$($columns)*] [$($more)*] [$($read)* $column $at] $($record)*)
    };
    (@ ($alloc:expr, $row:expr) [] [$count:literal $($more:literal)*] [$($column:ident $at:literal)*] $($record:tt)*) => {{
        if $row.column_count() != $count {
            return Ok(None);
        }
        $(
            let Some($column) = $crate::cell::Cell::read_cell($alloc, $row, $at)? else {
                return Ok(None);
            };
        )*
        Ok(Some($($record)*))
    }};
}

pub(crate) use read_row;
