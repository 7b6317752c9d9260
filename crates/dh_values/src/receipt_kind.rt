//! What a receipt is for.

ghost use Rattle.std.specs.Prelude.{◌≡◌, MatchResult, None, Some};
ghost use Rattle.dh_values.specs.Kinds.{receipt_kind_of, receipt_kind_text};

use crate::BadText;
use std::fmt;

/// What a receipt is for.
#[derive(Clone, Copy, Debug, PartialEq, Eq)]
pub enum ReceiptKind {
    Rent,
    Deposit,
}

impl ReceiptKind {
    /// The kind that the text names: `rent` or `deposit`. It takes no memory. `BadText` for any
    /// other text; upper and lower case differ.
    pub fn read(text: &str) -> Result<ReceiptKind, BadText>
        ensures { MatchResult result (λ k. receipt_kind_of text.now ≡ Some k) (λ _. receipt_kind_of text.now ≡ None) }
    {
        match text {
            "rent" => Ok(ReceiptKind::Rent),
            "deposit" => Ok(ReceiptKind::Deposit),
            _ => Err(BadText),
        }
    }

    /// The text that names the kind.
    pub fn as_str(self) -> &'static str
        ensures { result.now ≡ receipt_kind_text self }
    {
        match self {
            ReceiptKind::Rent => "rent",
            ReceiptKind::Deposit => "deposit",
        }
    }
}

impl fmt::Display for ReceiptKind {
    ghost output = { λ k. Some (receipt_kind_text k) };

    fn fmt<W: fmt::Write>(&self, f: &mut fmt::Formatter<W>) -> fmt::Result {
        f.pad(self.as_str())
    }
}
