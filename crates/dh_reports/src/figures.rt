//! Money, days and months as texts that lie in the value itself.

ghost use Rattle.std.specs.Prelude.{◌≡◌, ◌<◌, ◌≤◌, ◌++◌, length};
ghost use Rattle.arrayvec.specs.ArrayString.{array_string_len};
ghost use Rattle.dh_values.specs.Money.{money_text, pence_text};
ghost use Rattle.dh_days.specs.Days.{day_text};
ghost use Rattle.dh_days.specs.Months.{month_text, two_digits};

use arrayvec::ArrayString;
use dh_types::{Balance, Day, Month};
use itoa::Buffer;

/// The text of money, of a month or of a day, with room to spare.
pub type Figures = ArrayString<48>;

// Appends the mark and two digits.
fn push_two_digits(text: &mut Figures, mark: &str, number: u8)
    requires few { number < 100 }
    requires short { length mark.now ≤ 1 }
    requires room { array_string_len text.old ≤ 41 }
    ensures { text.new.bytes ≡ text.old.bytes ++ (mark.now ++ two_digits number) }
{
    text.push_str(mark);
    text.push_str(Buffer::new().format(number / 10));
    text.push_str(Buffer::new().format(number % 10));
}

// Appends pounds, a point and two digits.
fn push_pence(text: &mut Figures, pence: u128)
    requires { array_string_len text.old ≤ 1 }
    ensures { text.new.bytes ≡ text.old.bytes ++ pence_text pence }
{
    text.push_str(Buffer::new().format(pence / 100));
    push_two_digits(text, ".", (pence % 100) as u8);
}

/// The text of so many pence.
pub fn pence_text(pence: u64) -> Figures
    ensures { result.bytes ≡ pence_text pence }
{
    let mut text = ArrayString::new();
    push_pence(&mut text, u128::from(pence));
    text
}

/// The text of a balance, with a hyphen before what is owed the other way.
pub fn money_text(balance: Balance) -> Figures
    ensures { result.bytes ≡ money_text balance }
{
    let pence = balance.pence();
    let sign = if pence < 0 { "-" } else { "" };
    let mut text = ArrayString::new();
    text.push_str(sign);
    push_pence(&mut text, pence.unsigned_abs());
    text
}

/// The text of a month, as `2025-01`.
pub fn month_text(month: Month) -> Figures
    ensures text { result.bytes ≡ month_text month }
    ensures room { array_string_len result ≤ 41 }
{
    let mut text = ArrayString::new();
    text.push_str(Buffer::new().format(month.number() / 12));
    push_two_digits(&mut text, "-", (month.number() % 12 + 1) as u8);
    text
}

/// The text of a day, as `2025-01-31`.
pub fn day_text(day: Day) -> Figures
    ensures { result.bytes ≡ day_text day }
{
    let mut text = month_text(day.month());
    push_two_digits(&mut text, "-", day.number_in_month() as u8);
    text
}
