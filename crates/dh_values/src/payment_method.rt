//! How a payment is made.

ghost use Rattle.std.specs.Prelude.{◌≡◌, MatchResult, None, Some};
ghost use Rattle.dh_values.specs.Kinds.{payment_method_of, payment_method_text};

use crate::BadText;
use std::fmt;

/// How a payment is made.
#[derive(Clone, Copy, Debug, PartialEq, Eq)]
pub enum PaymentMethod {
    Cash,
    Cheque,
    Card,
    Transfer,
}

impl PaymentMethod {
    /// The method that the text names: `Cash`, `Cheque`, `Card` or `Transfer`. It takes no memory. `BadText` for any
    /// other text; upper and lower case differ.
    pub fn read(text: &str) -> Result<PaymentMethod, BadText>
        ensures { MatchResult result (λ k. payment_method_of text.now ≡ Some k) (λ _. payment_method_of text.now ≡ None) }
    {
        match text {
            "Cash" => Ok(PaymentMethod::Cash),
            "Cheque" => Ok(PaymentMethod::Cheque),
            "Card" => Ok(PaymentMethod::Card),
            "Transfer" => Ok(PaymentMethod::Transfer),
            _ => Err(BadText),
        }
    }

    /// The text that names the method.
    pub fn as_str(self) -> &'static str
        ensures { result.now ≡ payment_method_text self }
    {
        match self {
            PaymentMethod::Cash => "Cash",
            PaymentMethod::Cheque => "Cheque",
            PaymentMethod::Card => "Card",
            PaymentMethod::Transfer => "Transfer",
        }
    }
}

impl fmt::Display for PaymentMethod {
    ghost output = { λ k. Some (payment_method_text k) };

    fn fmt<W: fmt::Write>(&self, f: &mut fmt::Formatter<W>) -> fmt::Result {
        f.pad(self.as_str())
    }
}
