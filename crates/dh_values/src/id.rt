//! The code of a branch, a property or a person.

ghost use Rattle.std.specs.Prelude.{◌≡◌, ◌↔◌, true, IsTrue, IsOk, IfOk, Some};
ghost use Rattle.std.specs.List.{list_all};
ghost use Rattle.dh_values.specs.Texts.{is_code_byte, is_id};

use crate::BadText;
use crate::short_bytes::Short;
use std::marker::Model;
use std::{fmt, str};

/// 1 to 8 characters of A-Z and 0-9, the first a letter. The order is that of the bytes.
#[derive(Clone, Copy, PartialEq, Eq, PartialOrd, Ord)]
pub struct Id {
    bytes: Short<8>,
}

impl Model for Id {
    ghost use Rattle.std.specs.Prelude.{◌≡◌, true, List, ℕ};
    ghost use Rattle.dh_values.specs.Texts.{is_id};

    ghost Value = { List ℕ };

    ghost view = { λ s. s.bytes };

    ghost invariant = { λ s. is_id s.bytes ≡ true };

    ghost inverse = { λ t. record { bytes = t } };
}

fn is_code_byte(b: u8) -> bool
    ensures { result ≡ is_code_byte b }
{
    b.is_ascii_uppercase() || b.is_ascii_digit()
}

fn are_code_bytes(bytes: &[u8]) -> bool
    ensures { result ≡ list_all is_code_byte bytes.now }
{
    bytes.iter().all(|b| is_code_byte(*b))
}

fn is_id(bytes: &[u8]) -> bool
    ensures { result ≡ is_id bytes.now }
{
    1 <= bytes.len() && bytes.len() <= 8 && bytes[0].is_ascii_uppercase() && are_code_bytes(bytes)
}

impl Id {
    /// The code that the text spells. It takes no memory. `BadText` where the text is no code.
    pub fn read(text: &str) -> Result<Id, BadText>
        ensures value { IfOk result (λ id. id ≡ text.now) }
        ensures exact { IsOk result ↔ IsTrue (is_id text.now) }
    {
        let bytes = text.as_bytes();
        if !is_id(bytes) {
            return Err(BadText);
        }
        let bytes = Short::of(bytes);
        Ok(Id { bytes })
    }

    /// The text of the code.
    pub fn as_str(&self) -> &str
        ensures text { result.now ≡ self.now }
        ensures code { is_id self.now ≡ true }
    {
        unsafe { str::from_utf8_unchecked(self.bytes.bytes()) }
    }
}

impl fmt::Display for Id {
    ghost output = { λ id. Some id };

    fn fmt<W: fmt::Write>(&self, f: &mut fmt::Formatter<W>) -> fmt::Result {
        f.pad(self.as_str())
    }
}
