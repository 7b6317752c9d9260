//! What a property is.

ghost use Rattle.std.specs.Prelude.{◌≡◌, MatchResult, None, Some};
ghost use Rattle.dh_values.specs.Kinds.{property_type_of, property_type_text};

use crate::BadText;
use std::fmt;

/// What a property is.
#[derive(Clone, Copy, Debug, PartialEq, Eq)]
pub enum PropertyType {
    House,
    Flat,
}

impl PropertyType {
    /// The type that the text names: `House` or `Flat`. It takes no memory. `BadText` for any
    /// other text; upper and lower case differ.
    pub fn read(text: &str) -> Result<PropertyType, BadText>
        ensures { MatchResult result (λ k. property_type_of text.now ≡ Some k) (λ _. property_type_of text.now ≡ None) }
    {
        match text {
            "House" => Ok(PropertyType::House),
            "Flat" => Ok(PropertyType::Flat),
            _ => Err(BadText),
        }
    }

    /// The text that names the type.
    pub fn as_str(self) -> &'static str
        ensures { result.now ≡ property_type_text self }
    {
        match self {
            PropertyType::House => "House",
            PropertyType::Flat => "Flat",
        }
    }
}

impl fmt::Display for PropertyType {
    ghost output = { λ k. Some (property_type_text k) };

    fn fmt<W: fmt::Write>(&self, f: &mut fmt::Formatter<W>) -> fmt::Result {
        f.pad(self.as_str())
    }
}
