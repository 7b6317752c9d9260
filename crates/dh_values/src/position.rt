//! What a member of staff is.

ghost use Rattle.std.specs.Prelude.{◌≡◌, MatchResult, None, Some};
ghost use Rattle.dh_values.specs.Kinds.{position_of, position_text};

use crate::BadText;
use std::fmt;

/// What a member of staff is.
#[derive(Clone, Copy, Debug, PartialEq, Eq)]
pub enum Position {
    Manager,
    Supervisor,
    Assistant,
}

impl Position {
    /// The position that the text names: `Manager`, `Supervisor` or `Assistant`. It takes no memory. `BadText` for any
    /// other text; upper and lower case differ.
    pub fn read(text: &str) -> Result<Position, BadText>
        ensures { MatchResult result (λ k. position_of text.now ≡ Some k) (λ _. position_of text.now ≡ None) }
    {
        match text {
            "Manager" => Ok(Position::Manager),
            "Supervisor" => Ok(Position::Supervisor),
            "Assistant" => Ok(Position::Assistant),
            _ => Err(BadText),
        }
    }

    /// The text that names the position.
    pub fn as_str(self) -> &'static str
        ensures { result.now ≡ position_text self }
    {
        match self {
            Position::Manager => "Manager",
            Position::Supervisor => "Supervisor",
            Position::Assistant => "Assistant",
        }
    }
}

impl fmt::Display for Position {
    ghost output = { λ k. Some (position_text k) };

    fn fmt<W: fmt::Write>(&self, f: &mut fmt::Formatter<W>) -> fmt::Result {
        f.pad(self.as_str())
    }
}
