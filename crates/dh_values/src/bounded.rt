//! Numbers between two bounds, of one kind or another.

ghost use Rattle.std.specs.Prelude.{ℕ, ◌≡◌, ◌≤◌, ◌↔◌, IsSome, IfSome, MatchResult, None, Some, pos, ◌≤ℤ◌, nat_eq, refl};
ghost use Rattle.std.specs.Cmp.{partial_equiv_from_equiv, nat_eq_equiv, nat_cmp_total};
ghost use Rattle.std.specs.Cmp.Rules.{comparing};
ghost use Rattle.std.specs.Fmt.{decimal};
ghost use Rattle.std.specs.Ordering.{nat_cmp};
ghost use Rattle.std.proofs.Common.{rules};
ghost use Rattle.dh_values.specs.Numbers.{numeral_of, within};

use crate::BadText;
use crate::digits::read_within;
use std::cmp::Ordering;
use std::fmt;
use std::marker::{Model, PhantomData};

/// A number of this kind, from `LOW` to `HIGH`.
#[derive(Clone, Copy, Debug)]
pub struct Bounded<K, const LOW: u32, const HIGH: u32> {
    number: u32,
    kind: PhantomData<K>,
}

impl<K, const LOW: u32, const HIGH: u32> Model for Bounded<K, LOW, HIGH> {
    ghost use Rattle.std.specs.Prelude.{ℕ, ◌≤◌};

    ghost Value = { ℕ };

    ghost view = { λ s. s.number };

    ghost invariant = { λ s. (LOW ≤ s.number) × (s.number ≤ HIGH) };

    ghost inverse = { λ n. record { number = n; kind = record {} } };
}

impl<K, const LOW: u32, const HIGH: u32> Bounded<K, LOW, HIGH> {
    /// The value of this number, if it lies from the least to the greatest. `None` for any other number.
    pub fn try_of_number(number: i64) -> Option<Self>
        ensures value { IfSome result (λ n. pos n ≡ number) }
        ensures exact { IsSome result ↔ ((pos LOW ≤ℤ number) × (number ≤ℤ pos HIGH)) }
    {
        if number < LOW as i64 || number > HIGH as i64 {
            return None;
        }
        Some(Bounded::of_number(number as u32))
    }

    /// The value of this number.
    pub fn of_number(number: u32) -> Self
        requires { (LOW ≤ number) × (number ≤ HIGH) }
        ensures { result ≡ number }
    {
        Bounded {
            number,
            kind: PhantomData,
        }
    }

    /// The number.
    pub fn number(self) -> u32
        ensures value { result ≡ self }
        ensures range { (LOW ≤ self) × (self ≤ HIGH) }
    {
        self.number
    }

    /// The number that the text spells in decimal digits without a leading zero, but in 0 itself, from the least to the
    /// greatest. It takes no memory. `BadText` where the text spells no such number.
    pub fn read(text: &str) -> Result<Self, BadText>
        ensures { MatchResult result (λ n. within LOW HIGH (numeral_of text.now) ≡ Some n) (λ _. within LOW HIGH (numeral_of text.now) ≡ None) }
    {
        let number = read_within(LOW, HIGH, text)?;
        Ok(Bounded::of_number(number))
    }
}

impl<K, const LOW: u32, const HIGH: u32> PartialEq for Bounded<K, LOW, HIGH> {
    ghost eq = { nat_eq };

    ghost laws = { partial_equiv_from_equiv nat_eq_equiv };

    fn eq(&self, other: &Self) -> bool {
        self.number == other.number
    }
}

impl<K, const LOW: u32, const HIGH: u32> Eq for Bounded<K, LOW, HIGH> {
    ghost laws = { nat_eq_equiv };
}

impl<K, const LOW: u32, const HIGH: u32> PartialOrd for Bounded<K, LOW, HIGH> {
    ghost partial_cmp = { λ m n. Some (nat_cmp m n) };

    ghost laws = { Prim.search (comparing, rules) };

    fn partial_cmp(&self, other: &Self) -> Option<Ordering> {
        Some(self.cmp(other))
    }
}

impl<K, const LOW: u32, const HIGH: u32> Ord for Bounded<K, LOW, HIGH> {
    ghost cmp = { nat_cmp };

    ghost total = { nat_cmp_total };

    ghost matches_partial_cmp = { λ m n. refl };

    ghost matches_eq = { Prim.search (comparing, rules) };

    fn cmp(&self, other: &Self) -> Ordering {
        self.number.cmp(&other.number)
    }
}

impl<K, const LOW: u32, const HIGH: u32> fmt::Display for Bounded<K, LOW, HIGH> {
    ghost output = { λ n. Some (decimal n) };

    fn fmt<W: fmt::Write>(&self, f: &mut fmt::Formatter<W>) -> fmt::Result {
        write!(f, "{}", self.number)
    }
}
