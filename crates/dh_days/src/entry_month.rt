//! Months that lines know.

ghost use Rattle.std.specs.Prelude.{◌≡◌, ◌↔◌, ◌≤◌, IsSome, IfSome, MatchResult, None, Some, pos, ◌≤ℤ◌};
ghost use Rattle.dh_days.specs.Months.{IsEntryMonth, month_of, month_text};
ghost use Rattle.dh_days.specs.declared.limits.TheConstants.{FIRST_MONTH, LAST_ENTRY_MONTH};

use crate::Month;
use crate::limits::{FIRST_MONTH, LAST_ENTRY_MONTH};
use crate::month::spelled_month;
use dh_values::BadText;
use std::fmt;
use std::marker::Model;

/// A month that can be entered on a line, 2000-01 to 2200-12.
/// A clause sees its number, 12 * year + month - 1.
#[derive(Clone, Copy, Debug, PartialEq, Eq, PartialOrd, Ord)]
pub struct EntryMonth {
    number: u32,
}

impl Model for EntryMonth {
    ghost use Rattle.std.specs.Prelude.{ℕ};
    ghost use Rattle.dh_days.specs.Months.{IsEntryMonth};

    ghost Value = { ℕ };

    ghost view = { λ m. m.number };

    ghost invariant = { λ m. IsEntryMonth m.number };

    ghost inverse = { λ n. record { number = n } };
}

impl EntryMonth {
    /// The month that the text spells, as `2025-01`. It takes no memory.
    /// `BadText` where the text is no month of 2000-01 to 2200-12.
    pub fn read(text: &str) -> Result<EntryMonth, BadText>
        ensures { MatchResult result (λ m. month_of text.now ≡ Some m) (λ _. month_of text.now ≡ None) }
    {
        match spelled_month(text.as_bytes()) {
            Some(number) => Ok(EntryMonth { number }),
            None => Err(BadText),
        }
    }

    /// The month of this number, of 2000-01 to 2200-12. `None` for any other number.
    pub fn try_of_number(number: i64) -> Option<EntryMonth>
        ensures value { IfSome result (λ m. pos m ≡ number) }
        ensures exact { IsSome result ↔ ((pos FIRST_MONTH ≤ℤ number) × (number ≤ℤ pos LAST_ENTRY_MONTH)) }
    {
        if number < FIRST_MONTH as i64 || number > LAST_ENTRY_MONTH as i64 {
            return None;
        }
        Some(EntryMonth {
            number: number as u32,
        })
    }

    /// The month of this number.
    pub fn of_number(number: u32) -> EntryMonth
        requires { IsEntryMonth number }
        ensures { result ≡ number }
    {
        EntryMonth { number }
    }

    /// The month, if it can be entered. `None` exactly after 2200-12.
    pub fn of(month: Month) -> Option<EntryMonth>
        ensures value { IfSome result (λ m. m ≡ month) }
        ensures exact { IsSome result ↔ (month ≤ LAST_ENTRY_MONTH) }
    {
        let number = month.number();
        if number > LAST_ENTRY_MONTH {
            return None;
        }
        Some(EntryMonth { number })
    }

    /// The month among all months.
    pub fn month(self) -> Month
        ensures value { result ≡ self }
        ensures range { IsEntryMonth self }
    {
        Month::of_number(self.number)
    }

    /// 12 * year + month - 1.
    pub fn number(self) -> u32
        ensures value { result ≡ self }
        ensures range { IsEntryMonth self }
    {
        self.number
    }
}

impl fmt::Display for EntryMonth {
    ghost output = { λ m. Some (month_text m) };

    fn fmt<W: fmt::Write>(&self, f: &mut fmt::Formatter<W>) -> fmt::Result {
        write!(f, "{}", self.month())
    }
}
