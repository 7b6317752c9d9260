//! Days of the calendar.

ghost use Rattle.std.specs.Prelude.{◌≡◌, ◌↔◌, ◌+◌, ◌<◌, ◌≤◌, IsSome, IfSome, MatchResult, None, Some, pos, ◌≤ℤ◌};
ghost use Rattle.dh_days.specs.Months.{IsMonth};
ghost use Rattle.dh_days.specs.Days.{IsDay, days_in, day_at, day_of, day_text, day_until, due_day_of, has_day_form, month_of_day, number_in_month, plus_months};
ghost use Rattle.dh_days.specs.Dates.{IsDateOf};
ghost use Rattle.dh_days.specs.declared.limits.TheConstants.{LAST_MONTH};

use crate::Month;
use crate::limits::{FIRST_MONTH, LAST_ENTRY_MONTH, LAST_MONTH, LAST_MONTH_OF_ENTRY_DAYS};
use crate::month::spelled_month;
use dh_values::BadText;
use dh_values::digits::{are_digits, number};
use jiff::ToSpan;
use jiff::civil::{self, Date};
use std::fmt;
use std::marker::Model;

// The places that a month has.
const PLACES_A_MONTH: u32 = 31;

/// A day of the calendar from 2000-01-01 to 9999-12-31.
/// A clause sees its place, 31 * (its month's number) + (its number in the month) - 1: a month has
/// 31 places, and those past its last day stay empty. The order of places is that of the calendar.
#[derive(Clone, Copy, Debug, PartialEq, Eq, PartialOrd, Ord)]
pub struct Day {
    place: u32,
}

impl Model for Day {
    ghost use Rattle.std.specs.Prelude.{ℕ};
    ghost use Rattle.dh_days.specs.Days.{IsDay};

    ghost Value = { ℕ };

    ghost view = { λ d. d.place };

    ghost invariant = { λ d. IsDay d.place };

    ghost inverse = { λ n. record { place = n } };
}

// Whether the text is seven bytes, a dash and two digits.
fn has_day_form(bytes: &[u8]) -> bool
    ensures { result ≡ has_day_form bytes.now }
{
    bytes.len() == 10 && bytes[7] == b'-' && are_digits(&bytes[8..])
}

// The day that the bytes spell, in a month up to the last.
pub(crate) fn spelled_day(bytes: &[u8], last: u32) -> Option<Day>
    ensures value { result ≡ day_until last bytes.now }
    ensures range { IfSome result (λ d. IsDay d × (month_of_day d ≤ last)) }
{
    if !has_day_form(bytes) {
        return None;
    }
    let month = spelled_month(&bytes[..7])?;
    if month > last {
        return None;
    }
    Day::try_of(Month::of_number(month), number(&bytes[8..]))
}

impl Day {
    /// The day that the text spells, as `2025-01-31`: 2000-01-01 to 2199-12-31. It takes no memory.
    /// `BadText` where the text is no such day.
    pub fn read(text: &str) -> Result<Day, BadText>
        ensures { MatchResult result (λ d. day_of text.now ≡ Some d) (λ _. day_of text.now ≡ None) }
    {
        match spelled_day(text.as_bytes(), LAST_MONTH_OF_ENTRY_DAYS) {
            Some(day) => Ok(day),
            None => Err(BadText),
        }
    }

    /// The day that the text spells, as `2025-01-31`, where rent can fall due on it: 2000-01-01 to 2200-12-31. It takes no
    /// memory. `BadText` where the text is no such day.
    pub fn read_due(text: &str) -> Result<Day, BadText>
        ensures { MatchResult result (λ d. due_day_of text.now ≡ Some d) (λ _. due_day_of text.now ≡ None) }
    {
        match spelled_day(text.as_bytes(), LAST_ENTRY_MONTH) {
            Some(day) => Ok(day),
            None => Err(BadText),
        }
    }

    /// The day of this number in the month, counted from 1. `None` where the month has no such day.
    pub fn try_of(month: Month, number: u32) -> Option<Day>
        ensures value { IfSome result (λ d. d ≡ day_at month number) }
        ensures exact { IsSome result ↔ ((1 ≤ number) × (number ≤ days_in month)) }
    {
        if number > PLACES_A_MONTH {
            return None;
        }
        let month = month.number();
        let (year, month_of_year) = (month / 12, month % 12 + 1);
        match Date::new(year as i16, month_of_year as i8, number as i8) {
            Ok(_) => Some(Day {
                place: PLACES_A_MONTH * month + number - 1,
            }),
            Err(_) => None,
        }
    }

    // The day as the calendar library has it.
    fn date(self) -> Date
        ensures value { IsDateOf self result }
        ensures range { IsDay self }
    {
        let month = self.place / PLACES_A_MONTH;
        civil::date(
            (month / 12) as i16,
            (month % 12 + 1) as i8,
            (self.place % PLACES_A_MONTH + 1) as i8,
        )
    }

    // The day that the calendar library has so.
    fn of_date(date: Date) -> Day
        requires { pos 2000 ≤ℤ date.year }
        ensures { IsDateOf result date }
    {
        let month = 12 * date.year() as u32 + date.month() as u32 - 1;
        Day {
            place: PLACES_A_MONTH * month + date.day() as u32 - 1,
        }
    }

    /// The month of the day.
    pub fn month(&self) -> Month
        ensures value { result ≡ month_of_day self.now }
        ensures range { IsDay self.now }
    {
        Month::of_number(self.place / PLACES_A_MONTH)
    }

    /// Which day of its month it is, from 1.
    pub fn number_in_month(&self) -> u32
        ensures { result ≡ number_in_month self.now }
    {
        self.place % PLACES_A_MONTH + 1
    }

    /// The day with the same number n months later, or the last day of that month where it is
    /// shorter. `None` exactly where that month is after 9999-12.
    pub fn plus_months(&self, n: u32) -> Option<Day>
        ensures later { IfSome result (λ d. d ≡ plus_months self.now n) }
        ensures exact { IsSome result ↔ (month_of_day self.now + n ≤ LAST_MONTH) }
    {
        let date = self.date();
        if n > LAST_MONTH - FIRST_MONTH {
            return None;
        }
        match date.checked_add((n as i64).months()) {
            Ok(date) => Some(Day::of_date(date)),
            Err(_) => None,
        }
    }
}

impl fmt::Display for Day {
    ghost output = { λ d. Some (day_text d) };

    fn fmt<W: fmt::Write>(&self, f: &mut fmt::Formatter<W>) -> fmt::Result {
        let number = self.number_in_month();
        let (tens, ones) = (number / 10, number % 10);
        write!(f, "{}-{tens}{ones}", self.month())
    }
}
