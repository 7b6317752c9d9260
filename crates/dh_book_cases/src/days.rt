//! Days and months: what a text is read as, printed again, and what lies some months later.

use crate::values::{Said, show, show_if_any};
use dh_days::{Day, EntryDay, EntryMonth, Month};
use std::fmt::Write;

// The day of the text, so many months later.
fn later(text: &str) -> Option<Day> {
    let (day, months) = text.split_once(" + ")?;
    Day::read(day).ok()?.plus_months(months.parse().ok()?)
}

// The day of this number in the month of the text.
fn day_in_month(text: &str) -> Option<Day> {
    let (month, number) = text.split_once(' ')?;
    Day::try_of(Month::read(month).ok()?, number.parse().ok()?)
}

// Writes the month of a day, and its number in it.
fn show_parts(out: &mut String, text: &str) -> Said {
    match Day::read(text) {
        Ok(day) => write!(out, "{} {}", day.month(), day.number_in_month())?,
        Err(_) => out.push_str("bad")?,
    }
    Ok(true)
}

// The month after that of this text or number.
fn next_month(text: &str) -> Option<Month> {
    match text.parse() {
        Ok(number) => Month::try_of_number(number)?.next(),
        Err(_) => Month::read(text).ok()?.next(),
    }
}

// The number of the month that the text spells.
fn month_number(text: &str) -> Option<u32> {
    Some(Month::read(text).ok()?.number())
}

/// Answers a text, where the kind is one of days or months.
pub fn answer(out: &mut String, kind: &str, text: &str) -> Said {
    let number = text.parse().unwrap_or(i64::MIN);
    match kind {
        "day" => show(out, Day::read(text)),
        "entry_day" => show(out, EntryDay::read(text)),
        "month" => show(out, Month::read(text)),
        "entry_month" => show(out, EntryMonth::read(text)),
        "day_parts" => show_parts(out, text),
        "day_in_month" => show_if_any(out, day_in_month(text)),
        "months_later" => show_if_any(out, later(text)),
        "entry_day_later" => show_if_any(out, later(text).and_then(EntryDay::of)),
        "month_of" => show_if_any(out, Month::try_of_number(number)),
        "entry_month_of" => show_if_any(out, EntryMonth::try_of_number(number)),
        "month_after" => show_if_any(out, next_month(text)),
        "entry_month_after" => show_if_any(out, next_month(text).and_then(EntryMonth::of)),
        "month_number" => show_if_any(out, month_number(text)),
        _ => Ok(false),
    }
}
