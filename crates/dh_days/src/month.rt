//! Months, counted.

ghost use Rattle.std.specs.Prelude.{◌≡◌, ◌↔◌, ◌+◌, ◌<◌, ◌≤◌, IsSome, IfSome, MatchResult, None, Some, pos, ◌≤ℤ◌};
ghost use Rattle.dh_days.specs.Months.{IsMonth, IsEntryMonth, has_month_form, month_of, month_text};
ghost use Rattle.dh_days.specs.declared.limits.TheConstants.{FIRST_MONTH, LAST_MONTH};

use crate::limits::{FIRST_MONTH, LAST_MONTH};
use dh_values::BadText;
use dh_values::digits::{are_digits, number};
use std::fmt;
use std::marker::Model;

/// A month of the calendar from 2000-01 to 9999-12.
/// A clause sees its number, 12 * year + month - 1.
#[derive(Clone, Copy, Debug, PartialEq, Eq, PartialOrd, Ord)]
pub struct Month {
    number: u32,
}

impl Model for Month {
    ghost use Rattle.std.specs.Prelude.{ℕ};
    ghost use Rattle.dh_days.specs.Months.{IsMonth};

    ghost Value = { ℕ };

    ghost view = { λ m. m.number };

    ghost invariant = { λ m. IsMonth m.number };

    ghost inverse = { λ n. record { number = n } };
}

// Whether the text is four digits, a dash and two digits.
fn has_month_form(bytes: &[u8]) -> bool
    ensures { result ≡ has_month_form bytes.now }
{
    bytes.len() == 7 && are_digits(&bytes[..4]) && bytes[4] == b'-' && are_digits(&bytes[5..])
}

// The number of the month that the bytes spell.
pub(crate) fn spelled_month(bytes: &[u8]) -> Option<u32>
    ensures value { result ≡ month_of bytes.now }
    ensures range { IfSome result IsEntryMonth }
{
    if !has_month_form(bytes) {
        return None;
    }
    let year = number(&bytes[..4]);
    let month = number(&bytes[5..]);
    if year < 2000 || year > 2200 || month < 1 || month > 12 {
        return None;
    }
    Some(12 * year + month - 1)
}

impl Month {
    /// The month that the text spells, as `2025-01`: 2000-01 to 2200-12. It takes no memory.
    /// `BadText` where the text is no such month.
    pub fn read(text: &str) -> Result<Month, BadText>
        ensures { MatchResult result (λ m. month_of text.now ≡ Some m) (λ _. month_of text.now ≡ None) }
    {
        match spelled_month(text.as_bytes()) {
            Some(number) => Ok(Month { number }),
            None => Err(BadText),
        }
    }

    /// The month of this number, of 2000-01 to 9999-12. `None` for any other number.
    pub fn try_of_number(number: i64) -> Option<Month>
        ensures value { IfSome result (λ m. pos m ≡ number) }
        ensures exact { IsSome result ↔ ((pos FIRST_MONTH ≤ℤ number) × (number ≤ℤ pos LAST_MONTH)) }
    {
        if number < FIRST_MONTH as i64 || number > LAST_MONTH as i64 {
            return None;
        }
        Some(Month {
            number: number as u32,
        })
    }

    /// The month of this number.
    pub fn of_number(number: u32) -> Month
        requires { IsMonth number }
        ensures { result ≡ number }
    {
        Month { number }
    }

    /// 12 * year + month - 1.
    pub fn number(self) -> u32
        ensures value { result ≡ self }
        ensures range { IsMonth self }
    {
        self.number
    }

    /// The month after this one. `None` exactly after 9999-12.
    pub fn next(self) -> Option<Month>
        ensures value { IfSome result (λ m. m ≡ self + 1) }
        ensures exact { IsSome result ↔ (self < LAST_MONTH) }
    {
        if self.number >= LAST_MONTH {
            return None;
        }
        Some(Month {
            number: self.number + 1,
        })
    }
}

impl fmt::Display for Month {
    ghost output = { λ m. Some (month_text m) };

    fn fmt<W: fmt::Write>(&self, f: &mut fmt::Formatter<W>) -> fmt::Result {
        let year = self.number / 12;
        let month = self.number % 12 + 1;
        let (tens, ones) = (month / 10, month % 10);
        write!(f, "{year}-{tens}{ones}")
    }
}
