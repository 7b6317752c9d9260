//! Days that lines know.

ghost use Rattle.std.specs.Prelude.{◌≡◌, ◌↔◌, ◌≤◌, IsSome, IfSome, MatchResult, None, Some};
ghost use Rattle.dh_days.specs.Days.{IsEntryDay, day_of, day_text, month_of_day};
ghost use Rattle.dh_days.specs.declared.limits.TheConstants.{LAST_MONTH_OF_ENTRY_DAYS};

use crate::Day;
use crate::day::spelled_day;
use crate::limits::LAST_MONTH_OF_ENTRY_DAYS;
use dh_values::BadText;
use std::fmt;
use std::marker::Model;

/// A day that can be entered on a line, 2000-01-01 to 2199-12-31. A clause sees its place, as of a [`Day`].
#[derive(Clone, Copy, Debug, PartialEq, Eq, PartialOrd, Ord)]
pub struct EntryDay {
    day: Day,
}

impl Model for EntryDay {
    ghost use Rattle.std.specs.Prelude.{ℕ};
    ghost use Rattle.dh_days.specs.Days.{IsEntryDay};

    ghost Value = { ℕ };

    ghost view = { λ d. d.day };

    ghost invariant = { λ d. IsEntryDay d.day };

    ghost inverse = { λ n. record { day = n } };
}

impl EntryDay {
    /// The day that the text spells, as `2025-01-31`. It takes no memory.
    /// `BadText` where the text is no day of 2000-01-01 to 2199-12-31.
    pub fn read(text: &str) -> Result<EntryDay, BadText>
        ensures { MatchResult result (λ d. day_of text.now ≡ Some d) (λ _. day_of text.now ≡ None) }
    {
        match spelled_day(text.as_bytes(), LAST_MONTH_OF_ENTRY_DAYS) {
            Some(day) => Ok(EntryDay { day }),
            None => Err(BadText),
        }
    }

    /// The day, if it can be entered. `None` exactly after 2199-12-31.
    pub fn of(day: Day) -> Option<EntryDay>
        ensures value { IfSome result (λ d. d ≡ day) }
        ensures exact { IsSome result ↔ (month_of_day day ≤ LAST_MONTH_OF_ENTRY_DAYS) }
    {
        if day.month().number() > LAST_MONTH_OF_ENTRY_DAYS {
            return None;
        }
        Some(EntryDay { day })
    }

    /// The day among all days.
    pub fn day(self) -> Day
        ensures value { result ≡ self }
        ensures range { IsEntryDay self }
    {
        self.day
    }
}

impl fmt::Display for EntryDay {
    ghost output = { λ d. Some (day_text d) };

    fn fmt<W: fmt::Write>(&self, f: &mut fmt::Formatter<W>) -> fmt::Result {
        write!(f, "{}", self.day())
    }
}
