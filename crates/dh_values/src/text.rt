//! Texts of few characters: names, streets, cities, comments.

ghost use Rattle.std.specs.Prelude.{◌≡◌, ◌↔◌, true, length, IsTrue, IsOk, IfErr, IfOk, Some, nat_eq};
ghost use Rattle.std.specs.Str.{chars};
ghost use Rattle.std.specs.List.{list_all};
ghost use Rattle.std.specs.Cmp.{partial_equiv_from_equiv};
ghost use Rattle.std.specs.Cmp.Lexicographic.{pointwise, nat_list_eq_equiv};
ghost use Rattle.dh_values.specs.Texts.{is_text, is_printable};

use crate::BadText;
use std::alloc::{AllocError, Global};
use std::fmt;
use std::marker::Model;

/// 1 to `MOST` characters, none below U+0020, none U+007F.
#[derive(Drop)]
pub struct Text<const MOST: usize> {
    text: String,
}

/// 1 to 60 characters: a name, a street, a city.
pub type Text60 = Text<60>;

/// 1 to 200 characters.
pub type Comment = Text<200>;

impl<const MOST: usize> Model for Text<MOST> {
    ghost use Rattle.std.specs.Prelude.{◌≡◌, true, List, ℕ, string_bytes};
    ghost use Rattle.dh_values.specs.Texts.{is_text};

    ghost Value = { List ℕ };

    ghost view = { λ t. string_bytes t.text };

    ghost invariant = { λ t. is_text MOST (string_bytes t.text) ≡ true };
}

fn is_printable(c: char) -> bool
    ensures { result ≡ is_printable c }
{
    c >= ' ' && c != '\u{7F}'
}

fn character_count(text: &str) -> usize
    ensures { result ≡ length (chars text.now) }
{
    text.chars().count()
}

fn are_printable(text: &str) -> bool
    ensures { result ≡ list_all is_printable (chars text.now) }
{
    text.chars().all(is_printable)
}

// Whether the text has 1 to so many characters, each of them printable.
fn is_text(most: usize, text: &str) -> bool
    ensures { result ≡ is_text most text.now }
{
    let count = character_count(text);
    1 <= count && count <= most && are_printable(text)
}

impl<const MOST: usize> Text<MOST> {
    /// The text, where it is one. Want of memory is the outer error, and only a text wants it.
    pub fn read(alloc: Global, text: &str) -> Result<Result<Self, BadText>, AllocError>
        ensures value { IfOk result (λ r. IfOk r (λ t. t ≡ text.now)) }
        ensures exact { IfOk result (λ r. IsOk r ↔ IsTrue (is_text MOST text.now)) }
        ensures memory { IfErr result (λ _. IsTrue (is_text MOST text.now)) }
    {
        if !is_text(MOST, text) {
            return Ok(Err(BadText));
        }
        let text = String::from_str(alloc, text)?;
        Ok(Ok(Text { text }))
    }

    /// The characters.
    pub fn as_str(&self) -> &str
        ensures text { result.now ≡ self.now }
        ensures grammar { is_text MOST self.now ≡ true }
    {
        self.text.as_str()
    }

    /// The same text in memory of its own.
    pub fn try_clone(&self, alloc: Global) -> Result<Self, AllocError>
        ensures { IfOk result (λ t. t ≡ self.now) }
    {
        let text = String::from_str(alloc, self.as_str())?;
        Ok(Text { text })
    }
}

impl<const MOST: usize> PartialEq for Text<MOST> {
    ghost eq = { λ s t. pointwise nat_eq s t };

    ghost laws = { partial_equiv_from_equiv nat_list_eq_equiv };

    fn eq(&self, other: &Self) -> bool {
        self.as_str() == other.as_str()
    }
}

impl<const MOST: usize> Eq for Text<MOST> {
    ghost laws = { nat_list_eq_equiv };
}

impl<const MOST: usize> fmt::Display for Text<MOST> {
    ghost output = { λ t. Some t };

    fn fmt<W: fmt::Write>(&self, f: &mut fmt::Formatter<W>) -> fmt::Result {
        f.pad(self.as_str())
    }
}
