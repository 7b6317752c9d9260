//! Writing replies, refusals and faults to any writer. It takes no memory.

ghost use Rattle.std.specs.Prelude.{◌≡◌, ◌≤◌, ◌++◌, ◌∷◌, ◌/◌, ◌%◌, ◌+◌, []};
ghost use Rattle.dh_values.specs.Money.{pence_text};
ghost use Rattle.dh_days.specs.Months.{IsMonth, month_text};
ghost use Rattle.dh_types.specs.Output.{Puts};
ghost use Rattle.dh_types.specs.Replies.{fault_text, progress_text, refusal_text, reply_text, sum_text, value_text};

use crate::output::Output;
use crate::reply::Progress;
use crate::text_writer::{put, put_pieces};
use crate::words::{Value, words_of_fault, words_of_refusal, words_of_reply};
use crate::{Fault, Month, Pence, Refusal, Reply, RunSum};
use std::io::Write;

// A hyphen and the month of the year, behind the year.
fn month_behind(month: Month) -> [u8; 3]
    ensures { result ≡ 45 ∷ (48 + (month % 12 + 1) / 10) ∷ (48 + (month % 12 + 1) % 10) ∷ [] }
{
    let of_year = month.number() % 12 + 1;
    [
        b'-',
        b'0' + (of_year / 10) as u8,
        b'0' + (of_year % 10) as u8,
    ]
}

// A point and the pence, behind the pounds.
fn pence_behind(money: Pence) -> [u8; 3]
    ensures { result ≡ 46 ∷ (48 + money % 100 / 10) ∷ (48 + money % 100 % 10) ∷ [] }
{
    let pence = money.pence() % 100;
    [b'.', b'0' + (pence / 10) as u8, b'0' + (pence % 10) as u8]
}

/// Writes the lead and then the month, as YYYY-MM; at an `Output` a beginning of them was written.
pub fn put_month<W: Write>(writer: &mut W, lead: &[u8], month: Month) -> Result<(), Output>
    ensures { Puts (W.contents writer.old) (W.contents writer.new) result (lead.now ++ month_text month) }
{
    let mut digits = itoa::Buffer::new();
    let year = digits.format(month.number() / 12).as_bytes();
    put_pieces(writer, &[lead, year, &month_behind(month)])
}

// Writes the lead and then the money.
fn put_money<W: Write>(writer: &mut W, lead: &[u8], money: Pence) -> Result<(), Output>
    ensures { Puts (W.contents writer.old) (W.contents writer.new) result (lead.now ++ pence_text money) }
{
    let mut digits = itoa::Buffer::new();
    let pounds = digits.format(money.pence() / 100).as_bytes();
    put_pieces(writer, &[lead, pounds, &pence_behind(money)])
}

// Writes the lead and then how far the run is.
fn put_progress<W: Write>(writer: &mut W, lead: &[u8], run: Progress) -> Result<(), Output>
    ensures { Puts (W.contents writer.old) (W.contents writer.new) result (lead.now ++ progress_text run) }
{
    let month = run.month.month();
    let mut years = itoa::Buffer::new();
    let year = years.format(month.number() / 12).as_bytes();
    let mut dones = itoa::Buffer::new();
    let done = dones.format(run.done).as_bytes();
    let mut ofs = itoa::Buffer::new();
    let of = ofs.format(run.of).as_bytes();
    put_pieces(
        writer,
        &[lead, year, &month_behind(month), b" ", done, b" of ", of],
    )
}

// Writes the lead and then what the run comes to.
fn put_sum<W: Write>(writer: &mut W, lead: &[u8], sum: RunSum) -> Result<(), Output>
    ensures { Puts (W.contents writer.old) (W.contents writer.new) result (lead.now ++ sum_text sum) }
{
    let month = sum.month.month();
    let mut years = itoa::Buffer::new();
    let year = years.format(month.number() / 12).as_bytes();
    let mut counts = itoa::Buffer::new();
    let count = counts.format(sum.count).as_bytes();
    let mut all_pounds = itoa::Buffer::new();
    let pounds = all_pounds.format(sum.total.pence() / 100).as_bytes();
    put_pieces(
        writer,
        &[
            lead,
            year,
            &month_behind(month),
            b" ",
            count,
            b" ",
            pounds,
            &pence_behind(sum.total),
        ],
    )
}

// Writes the lead and then the value.
fn put_value<W: Write>(writer: &mut W, lead: &[u8], value: Value) -> Result<(), Output>
    ensures { Puts (W.contents writer.old) (W.contents writer.new) result (lead.now ++ value_text value) }
{
    let mut digits = itoa::Buffer::new();
    match value {
        Value::Nothing => put(writer, lead),
        Value::Number(number) => put_pieces(writer, &[lead, digits.format(number).as_bytes()]),
        Value::Signed(number) => put_pieces(writer, &[lead, digits.format(number).as_bytes()]),
        Value::Month(month) => put_month(writer, lead, month),
        Value::Money(money) => put_money(writer, lead, money),
        Value::Progress(run) => put_progress(writer, lead, run),
        Value::Sum(sum) => put_sum(writer, lead, sum),
    }
}

/// Writes the text of the refusal: its number, and what it carries. It ends with no line feed.
/// At an `Output` a beginning of the text was written.
pub fn put_refusal<W: Write>(writer: &mut W, refusal: Refusal) -> Result<(), Output>
    ensures { Puts (W.contents writer.old) (W.contents writer.new) result (refusal_text refusal) }
{
    let words = words_of_refusal(refusal);
    put_value(writer, words.lead.as_bytes(), words.value)
}

/// Writes the text of the reply, with no line feed.
/// At an `Output` a beginning of the text was written.
pub fn put_reply<W: Write>(writer: &mut W, reply: Reply) -> Result<(), Output>
    ensures { Puts (W.contents writer.old) (W.contents writer.new) result (reply_text reply) }
{
    let words = words_of_reply(reply);
    put_value(writer, words.lead.as_bytes(), words.value)
}

/// Writes the text of the fault, with no line feed.
/// At an `Output` a beginning of the text was written.
pub fn put_fault<W: Write>(writer: &mut W, fault: Fault) -> Result<(), Output>
    ensures { Puts (W.contents writer.old) (W.contents writer.new) result (fault_text fault) }
{
    let words = words_of_fault(fault);
    put_value(writer, words.lead.as_bytes(), words.value)
}
