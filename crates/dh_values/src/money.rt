//! Money that a line spells: rents and what receipts take.

ghost use Rattle.std.specs.Prelude.{◌≡◌, ◌≤◌, ◌↔◌, IsSome, IfSome, MatchResult, None, Some, pos, ◌≤ℤ◌};
ghost use Rattle.dh_values.specs.Money.{has_pence, is_pounds, pence_of, pence_text};
ghost use Rattle.dh_values.specs.Numbers.{within};

use crate::digits::{are_digits, number};
use crate::limits::{MOST_AMOUNT, MOST_RENT};
use crate::{BadText, Pence};
use std::fmt;
use std::marker::Model;

/// Money in pence, 1 to `MOST`.
#[derive(Clone, Copy, Debug, PartialEq, Eq, PartialOrd, Ord)]
pub struct Money<const MOST: u32> {
    pence: u32,
}

/// A monthly rent in pence, 1 to 999,999.
pub type Rent = Money<MOST_RENT>;

/// What a receipt takes, in pence, 1 to 99,999,999.
pub type Amount = Money<MOST_AMOUNT>;

impl<const MOST: u32> Model for Money<MOST> {
    ghost use Rattle.std.specs.Prelude.{ℕ, ◌≤◌};

    ghost Value = { ℕ };

    ghost view = { λ s. s.pence };

    ghost invariant = { λ s. (1 ≤ s.pence) × (s.pence ≤ MOST) };

    ghost inverse = { λ p. record { pence = p } };
}

fn is_pounds(bytes: &[u8]) -> bool
    ensures { result ≡ is_pounds bytes.now }
{
    1 <= bytes.len() && bytes.len() <= 6 && are_digits(bytes)
}

// Whether the text is pounds, a point and two digits.
fn has_pence(bytes: &[u8]) -> bool
    ensures { result ≡ has_pence bytes.now }
{
    if bytes.len() < 4 {
        return false;
    }
    let point = bytes.len() - 3;
    bytes[point] == b'.' && is_pounds(&bytes[..point]) && are_digits(&bytes[point + 1..])
}

/// The pence that the text spells: 1 to 6 digits of pounds, then nothing, or a point and two digits of pence. It takes no
/// memory. `BadText` for any other text.
pub(crate) fn read_pence(text: &str) -> Result<u64, BadText>
    ensures { MatchResult result (λ p. pence_of text.now ≡ Some p) (λ _. pence_of text.now ≡ None) }
{
    let bytes = text.as_bytes();
    if is_pounds(bytes) {
        return Ok(100 * number(bytes) as u64);
    }
    if !has_pence(bytes) {
        return Err(BadText);
    }
    let point = bytes.len() - 3;
    let pounds = number(&bytes[..point]) as u64;
    let rest = number(&bytes[point + 1..]) as u64;
    Ok(100 * pounds + rest)
}

impl<const MOST: u32> Money<MOST> {
    /// What the text spells as money, 1 to `MOST` pence. It takes no memory.
    /// `BadText` where the text is no money, as `Pence` reads it, or not in the range.
    pub fn read(text: &str) -> Result<Self, BadText>
        ensures { MatchResult result (λ p. within 1 MOST (pence_of text.now) ≡ Some p) (λ _. within 1 MOST (pence_of text.now) ≡ None) }
    {
        let pence = read_pence(text)?;
        if pence < 1 || pence > MOST as u64 {
            return Err(BadText);
        }
        Ok(Money {
            pence: pence as u32,
        })
    }

    /// So many pence, 1 to `MOST`. `None` for any other number.
    pub fn try_of_pence(pence: i64) -> Option<Self>
        ensures value { IfSome result (λ p. pos p ≡ pence) }
        ensures exact { IsSome result ↔ ((pos 1 ≤ℤ pence) × (pence ≤ℤ pos MOST)) }
    {
        if pence < 1 || pence > MOST as i64 {
            return None;
        }
        Some(Money {
            pence: pence as u32,
        })
    }

    /// So many pence.
    pub fn of_pence(pence: u32) -> Self
        requires { (1 ≤ pence) × (pence ≤ MOST) }
        ensures { result ≡ pence }
    {
        Money { pence }
    }

    /// How many pence.
    pub fn pence(self) -> u32
        ensures value { result ≡ self.entry }
        ensures range { (1 ≤ self.entry) × (self.entry ≤ MOST) }
    {
        self.pence
    }
}

impl<const MOST: u32> fmt::Display for Money<MOST> {
    ghost output = { λ p. Some (pence_text p) };

    fn fmt<W: fmt::Write>(&self, f: &mut fmt::Formatter<W>) -> fmt::Result {
        fmt::Display::fmt(&Pence::of_pence(self.pence as u64), f)
    }
}
