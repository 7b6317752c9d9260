//! Codes, texts, kinds, numbers and money: what a text is read as, printed again.

use dh_values::{
    Amount, BadText, Balance, BatchCount, ChargeIndex, Comment, Fee, Id, Key, LeaseMonths, LeaseNo,
    PaymentMethod, Pence, Position, PropertyType, ReceiptKind, ReceiptNo, Rent, Rooms, Text60,
};
use std::alloc::{AllocError, Global};
use std::cmp::Ordering;
use std::fmt;
use std::fmt::Write;

/// Whether the text of a case was answered: its kind is known.
pub type Said = Result<bool, AllocError>;

/// Writes what the value prints, or `bad` where the text is none.
pub fn show<T: fmt::Display + Copy>(out: &mut String, read: Result<T, BadText>) -> Said {
    match read {
        Ok(value) => write!(out, "{value}")?,
        Err(_) => out.push_str("bad")?,
    }
    Ok(true)
}

/// Writes what the value prints, or `none`.
pub fn show_if_any<T: fmt::Display + Copy>(out: &mut String, value: Option<T>) -> Said {
    match value {
        Some(value) => write!(out, "{value}")?,
        None => out.push_str("none")?,
    }
    Ok(true)
}

// Writes a copy of the name, or `bad`.
fn show_text60(out: &mut String, alloc: Global, text: &str) -> Said {
    match Text60::read(alloc, text)? {
        Ok(read) => write!(out, "{}", read.try_clone(alloc)?)?,
        Err(_) => out.push_str("bad")?,
    }
    Ok(true)
}

// Writes a copy of the comment, or `bad`.
fn show_comment(out: &mut String, alloc: Global, text: &str) -> Said {
    match Comment::read(alloc, text)? {
        Ok(read) => write!(out, "{}", read.try_clone(alloc)?)?,
        Err(_) => out.push_str("bad")?,
    }
    Ok(true)
}

fn order_name(order: Option<Ordering>) -> &'static str {
    match order {
        Some(Ordering::Less) => "less",
        Some(Ordering::Equal) => "equal",
        Some(Ordering::Greater) => "greater",
        None => "bad",
    }
}

fn order_of_ids(text: &str) -> Option<Ordering> {
    let (a, b) = text.split_once(' ')?;
    Some(Id::read(a).ok()?.cmp(&Id::read(b).ok()?))
}

fn order_of_keys(text: &str) -> Option<Ordering> {
    let (a, b) = text.split_once(' ')?;
    Some(Key::read(a).ok()?.cmp(&Key::read(b).ok()?))
}

// Answers a number, as a table has it.
fn number(out: &mut String, kind: &str, number: i64) -> Said {
    match kind {
        "lease_no_of" => show_if_any(out, LeaseNo::try_of_number(number)),
        "receipt_no_of" => show_if_any(out, ReceiptNo::try_of_number(number)),
        "rooms_of" => show_if_any(out, Rooms::try_of_number(number)),
        "lease_months_of" => show_if_any(out, LeaseMonths::try_of_number(number)),
        "batch_count_of" => show_if_any(out, BatchCount::try_of_number(number)),
        "fee_of" => show_if_any(out, Fee::try_of_number(number)),
        "charge_index_of" => show_if_any(out, ChargeIndex::try_of_number(number)),
        "pence_of" => show_if_any(out, Pence::try_of_pence(number)),
        "rent_of" => show_if_any(out, Rent::try_of_pence(number)),
        "amount_of" => show_if_any(out, Amount::try_of_pence(number)),
        _ => Ok(false),
    }
}

// Answers a text of numbers or money.
fn counted(out: &mut String, kind: &str, text: &str) -> Said {
    match kind {
        "lease_no" => show(out, LeaseNo::read(text)),
        "rooms" => show(out, Rooms::read(text)),
        "lease_months" => show(out, LeaseMonths::read(text)),
        "batch_count" => show(out, BatchCount::read(text)),
        "fee" => show(out, Fee::read(text)),
        "pence" => show(out, Pence::read(text)),
        "rent" => show(out, Rent::read(text)),
        "amount" => show(out, Amount::read(text)),
        "balance_of" => show_if_any(out, text.parse().ok().map(Balance::of_pence)),
        _ => number(out, kind, text.parse().unwrap_or(i64::MIN)),
    }
}

/// Answers a text, where the kind is one of values.
pub fn answer(out: &mut String, alloc: Global, kind: &str, text: &str) -> Said {
    match kind {
        "id" => show(out, Id::read(text)),
        "key" => show(out, Key::read(text)),
        "ids" => show_if_any(out, Some(order_name(order_of_ids(text)))),
        "keys" => show_if_any(out, Some(order_name(order_of_keys(text)))),
        "text60" => show_text60(out, alloc, text),
        "comment" => show_comment(out, alloc, text),
        "property_type" => show(out, PropertyType::read(text)),
        "position" => show(out, Position::read(text)),
        "payment_method" => show(out, PaymentMethod::read(text)),
        "receipt_kind" => show(out, ReceiptKind::read(text)),
        _ => counted(out, kind, text),
    }
}
