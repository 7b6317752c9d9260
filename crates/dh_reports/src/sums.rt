//! The lines of reports that sum up money.

ghost use Rattle.std.specs.Prelude.{◌≤◌};
ghost use Rattle.dh_types.specs.Output.{Puts};
ghost use Rattle.dh_reports.specs.ReportTexts.{sum_line, sums_line};

use crate::columns::{left_aligned, put_line, right_aligned};
use crate::figures::money_text;
use dh_types::{Balance, Output};
use std::io::Write;

/// Writes the word, so many spaces and the money; at an `Output` a beginning of the line was written.
pub fn put_sum<W: Write>(
    writer: &mut W,
    word: &str,
    width: usize,
    money: Balance,
) -> Result<(), Output>
    requires { width ≤ 16 }
    ensures { Puts (W.contents writer.old) (W.contents writer.new) result (sum_line word.now width money) }
{
    put_line(
        writer,
        &[
            left_aligned(8, word),
            left_aligned(width, ""),
            right_aligned(12, money_text(money).as_str()),
        ],
    )
}

/// Writes the word, eight spaces and both sums; at an `Output` a beginning of the line was written.
pub(crate) fn put_sums<W: Write>(
    writer: &mut W,
    word: &str,
    total: Balance,
    fees: Balance,
) -> Result<(), Output>
    ensures { Puts (W.contents writer.old) (W.contents writer.new) result (sums_line word.now total fees) }
{
    put_line(
        writer,
        &[
            left_aligned(8, word),
            left_aligned(8, ""),
            right_aligned(12, money_text(total).as_str()),
            right_aligned(12, money_text(fees).as_str()),
        ],
    )
}
