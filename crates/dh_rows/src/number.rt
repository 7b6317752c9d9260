//! Fields that are kept as whole numbers.

ghost use Rattle.std.specs.Prelude.{◌≡◌, true, pos};
ghost use Rattle.sqlite_value.specs.declared.value.Value.TheVariants.{Int};
ghost use Rattle.dh_rows.specs.Cells.{flag_number, is_count_cell, is_flag_cell, is_month_cell, is_number_cell, is_pence_cell};
ghost use Rattle.dh_rows.specs.Cells.{is_through_cell, is_version_cell, through_value, version_number};

use crate::cell::{Cell, number_at};
use crate::limits::MOST_COUNT;
use dh_days::limits::{FIRST_MONTH, LAST_ENTRY_MONTH};
use dh_types::{EntryMonth, LeaseNo, Pence, Version};
use dh_values::limits::MOST_NUMBER;
use dh_values::{Bounded, Money};
use sqlite::Row;
use sqlite::types::ValueRef;
use std::alloc::{AllocError, Global};

impl<K: Copy, const LOW: u32, const HIGH: u32> Cell for Bounded<K, LOW, HIGH> {
    ghost cell = { λ n. Int (pos n) };

    ghost is_cell = { is_number_cell LOW HIGH };

    fn param<'a>(&'a self, _day: &'a [u8]) -> ValueRef<'a> {
        ValueRef::Int(i64::from(self.number()))
    }

    fn read_cell(_alloc: Global, columns: &Row, at: usize) -> Result<Option<Self>, AllocError> {
        match number_at(columns, at, LOW, HIGH) {
            Some(number) => Ok(Some(Bounded::of_number(number))),
            None => Ok(None),
        }
    }
}

/// A month that lines know.
impl Cell for EntryMonth {
    ghost cell = { λ n. Int (pos n) };

    ghost is_cell = { is_month_cell };

    fn param<'a>(&'a self, _day: &'a [u8]) -> ValueRef<'a> {
        ValueRef::Int(i64::from(self.number()))
    }

    fn read_cell(_alloc: Global, columns: &Row, at: usize) -> Result<Option<Self>, AllocError> {
        Ok(number_at(columns, at, FIRST_MONTH, LAST_ENTRY_MONTH).map(EntryMonth::of_number))
    }
}

impl<const MOST: u32> Cell for Money<MOST> {
    ghost cell = { λ n. Int (pos n) };

    ghost is_cell = { is_number_cell 1 MOST };

    fn param<'a>(&'a self, _day: &'a [u8]) -> ValueRef<'a> {
        ValueRef::Int(i64::from(self.pence()))
    }

    fn read_cell(_alloc: Global, columns: &Row, at: usize) -> Result<Option<Self>, AllocError> {
        match number_at(columns, at, 1, MOST) {
            Some(pence) => Ok(Some(Money::of_pence(pence))),
            None => Ok(None),
        }
    }
}

impl Cell for Pence {
    ghost cell = { λ n. Int (pos n) };

    ghost is_cell = { is_pence_cell };

    fn param<'a>(&'a self, _day: &'a [u8]) -> ValueRef<'a> {
        ValueRef::Int(self.pence() as i64)
    }

    fn read_cell(_alloc: Global, columns: &Row, at: usize) -> Result<Option<Self>, AllocError> {
        match columns.get_ref(at) {
            Ok(ValueRef::Int(pence)) => Ok(Pence::try_of_pence(pence)),
            _ => Ok(None),
        }
    }
}

/// A count of charges.
impl Cell for u32 {
    ghost cell = { λ n. Int (pos n) };

    ghost is_cell = { is_count_cell };

    fn param<'a>(&'a self, _day: &'a [u8]) -> ValueRef<'a> {
        ValueRef::Int(i64::from(*self))
    }

    fn read_cell(_alloc: Global, columns: &Row, at: usize) -> Result<Option<Self>, AllocError> {
        Ok(number_at(columns, at, 0, MOST_COUNT))
    }
}

/// 1 for yes, and 0 for no.
impl Cell for bool {
    ghost cell = { λ flag. Int (pos (flag_number flag)) };

    ghost is_cell = { is_flag_cell };

    fn param<'a>(&'a self, _day: &'a [u8]) -> ValueRef<'a> {
        ValueRef::Int(if *self { 1 } else { 0 })
    }

    fn read_cell(_alloc: Global, columns: &Row, at: usize) -> Result<Option<Self>, AllocError> {
        Ok(number_at(columns, at, 0, 1).map(|number| number == 1))
    }
}

/// The number by which meta gives the version.
pub fn version_number(version: Version) -> i64
    ensures value { result ≡ pos (version_number version) }
    ensures grammar { is_version_cell (Int (pos (version_number version))) ≡ true }
{
    match version {
        Version::First => 1,
        Version::Second => 2,
    }
}

impl Cell for Version {
    ghost cell = { λ version. Int (pos (version_number version)) };

    ghost is_cell = { is_version_cell };

    fn param<'a>(&'a self, _day: &'a [u8]) -> ValueRef<'a> {
        ValueRef::Int(version_number(*self))
    }

    fn read_cell(_alloc: Global, columns: &Row, at: usize) -> Result<Option<Self>, AllocError> {
        match number_at(columns, at, 1, 2) {
            Some(1) => Ok(Some(Version::First)),
            Some(_) => Ok(Some(Version::Second)),
            None => Ok(None),
        }
    }
}

/// The greatest lease charged, or 0 where there is none.
impl Cell for Option<LeaseNo> {
    ghost cell = { through_value };

    ghost is_cell = { is_through_cell };

    fn param<'a>(&'a self, _day: &'a [u8]) -> ValueRef<'a> {
        match self {
            Some(lease) => ValueRef::Int(i64::from(lease.number())),
            None => ValueRef::Int(0),
        }
    }

    fn read_cell(_alloc: Global, columns: &Row, at: usize) -> Result<Option<Self>, AllocError> {
        match number_at(columns, at, 0, MOST_NUMBER) {
            Some(0) => Ok(Some(None)),
            Some(number) => Ok(Some(Some(LeaseNo::of_number(number)))),
            None => Ok(None),
        }
    }
}
