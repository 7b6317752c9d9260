//! Money in pence.

ghost use Rattle.std.specs.Prelude.{◌≡◌, ◌≤◌, ◌↔◌, ◌≤ℤ◌, pos, IsSome, IfSome, MatchResult, None, Some};
ghost use Rattle.dh_values.specs.Money.{IsPence, pence_of, pence_text};

use crate::BadText;
use crate::money::read_pence;
use std::fmt;
use std::marker::Model;

/// An amount of money in whole pence, 0 to 2^63 - 1, of which a line can spell those to 99,999,999.
#[derive(Clone, Copy, Debug, PartialEq, Eq, PartialOrd, Ord)]
pub struct Pence {
    pence: u64,
}

impl Model for Pence {
    ghost use Rattle.std.specs.Prelude.{ℕ};
    ghost use Rattle.dh_values.specs.Money.{IsPence};

    ghost Value = { ℕ };

    ghost view = { λ p. p.pence };

    ghost invariant = { λ p. IsPence p.pence };

    ghost inverse = { λ n. record { pence = n } };
}

impl Pence {
    /// The amount that the text spells: 1 to 6 digits of pounds, then nothing, or a point and two
    /// digits of pence. It takes no memory. `BadText` for any other text.
    pub fn read(text: &str) -> Result<Pence, BadText>
        ensures { MatchResult result (λ p. pence_of text.now ≡ Some p) (λ _. pence_of text.now ≡ None) }
    {
        let pence = read_pence(text)?;
        Ok(Pence { pence })
    }

    /// So many pence. `None` where they are less than 0.
    pub fn try_of_pence(pence: i64) -> Option<Pence>
        ensures value { IfSome result (λ p. pos p ≡ pence) }
        ensures exact { IsSome result ↔ (pos 0 ≤ℤ pence) }
    {
        if pence < 0 {
            return None;
        }
        Some(Pence {
            pence: pence as u64,
        })
    }

    /// So many pence.
    pub fn of_pence(pence: u64) -> Pence
        requires { IsPence pence }
        ensures { result ≡ pence }
    {
        Pence { pence }
    }

    /// How many pence.
    pub fn pence(self) -> u64
        ensures value { result ≡ self }
        ensures range { IsPence self }
    {
        self.pence
    }
}

impl fmt::Display for Pence {
    ghost output = { λ p. Some (pence_text p) };

    fn fmt<W: fmt::Write>(&self, f: &mut fmt::Formatter<W>) -> fmt::Result {
        let (pounds, rest) = (self.pence / 100, self.pence % 100);
        let (tens, ones) = (rest / 10, rest % 10);
        write!(f, "{pounds}.{tens}{ones}")
    }
}
