//! The values of a letting agency: codes, texts and numbers, and which texts are values.
//! Read `Bounded` first, the form of the numbers, and `limits`; then `Pence` for money, and `Id` for codes.
#![tactic(auto)]

mod balance;
mod bounded;
pub mod digits;
mod id;
mod key;
pub mod laws;
pub mod limits;
mod money;
mod numbers;
mod payment_method;
mod pence;
mod position;
mod property_type;
mod receipt_kind;
mod short_bytes;
mod text;

pub use balance::Balance;
pub use bounded::Bounded;
pub use id::Id;
pub use key::Key;
pub use money::{Amount, Money, Rent};
pub use numbers::{BatchCount, ChargeIndex, Fee, LeaseMonths, LeaseNo, ReceiptNo, Rooms};
pub use payment_method::PaymentMethod;
pub use pence::Pence;
pub use position::Position;
pub use property_type::PropertyType;
pub use receipt_kind::ReceiptKind;
pub use text::{Comment, Text, Text60};

/// A text that is not in the grammar of a value.
#[derive(Clone, Copy, Debug, PartialEq, Eq)]
pub struct BadText;
