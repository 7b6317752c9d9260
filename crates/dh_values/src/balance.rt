//! What is owed.

ghost use Rattle.std.specs.Prelude.{◌≡◌, Some};
ghost use Rattle.dh_values.specs.Money.{money_text};

use std::fmt;
use std::marker::Model;

/// What is owed, in whole pence: less than 0 where too much was paid.
#[derive(Clone, Copy, Debug, PartialEq, Eq, PartialOrd, Ord)]
pub struct Balance {
    pence: i128,
}

impl Model for Balance {
    ghost use Rattle.std.specs.Prelude.{ℤ};

    ghost Value = { ℤ };

    ghost view = { λ b. b.pence };

    ghost inverse = { λ z. record { pence = z } };
}

impl Balance {
    /// So many pence.
    pub fn of_pence(pence: i128) -> Balance
        ensures { result ≡ pence }
    {
        Balance { pence }
    }

    /// How many pence.
    pub fn pence(self) -> i128
        ensures { result ≡ self }
    {
        self.pence
    }
}

impl fmt::Display for Balance {
    ghost output = { λ b. Some (money_text b) };

    fn fmt<W: fmt::Write>(&self, f: &mut fmt::Formatter<W>) -> fmt::Result {
        let pence = self.pence.unsigned_abs();
        let (pounds, rest) = (pence / 100, pence % 100);
        let (tens, ones) = (rest / 10, rest % 10);
        if self.pence < 0 {
            write!(f, "-{pounds}.{tens}{ones}")
        } else {
            write!(f, "{pounds}.{tens}{ones}")
        }
    }
}
