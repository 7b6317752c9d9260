//! The month that the books of the cases begin with.

ghost use Rattle.std.specs.Prelude.{◌≡◌};

use dh_types::Month;

/// January 2025.
pub fn january() -> Month
    ensures { result ≡ 24300 }
{
    Month::of_number(24300)
}
