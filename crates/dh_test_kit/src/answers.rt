//! What questions are answered, as texts: the rows between ` / `.

use crate::lists::{add_part, lines_of, or_none};
use dh_types::{
    Answer, Arrears, Charge, Debt, OwnerLine, OwnerStatement, Part, Property, Receipt, RunReport,
    Statement, Version,
};
use std::alloc::{AllocError, Global};
use std::fmt::Write;

/// `first` or `second`.
pub fn version_name(version: Version) -> &'static str {
    match version {
        Version::First => "first",
        Version::Second => "second",
    }
}

/// The numbers of the properties, or `none`.
pub fn numbers_of(alloc: Global, properties: &[Property]) -> Result<String, AllocError> {
    let mut text = String::new(alloc);
    for property in properties {
        add_part(&mut text, property.number.as_str())?;
    }
    or_none(alloc, text)
}

fn add_charge(text: &mut String, charge: &Charge) -> Result<(), AllocError> {
    write!(text, " / charged {} {}", charge.day, charge.amount)
}

fn add_receipt(text: &mut String, receipt: &Receipt) -> Result<(), AllocError> {
    let paid = &receipt.payment;
    write!(
        text,
        " / paid {} {} {} {}",
        receipt.number, paid.kind, paid.day, paid.amount
    )
}

// Adds the lease, its charges, its receipts and its balance.
fn add_statement(text: &mut String, found: &Statement) -> Result<(), AllocError> {
    let terms = &found.lease.terms;
    write!(text, "{} {} {}", terms.number, terms.client, terms.property)?;
    for charge in &found.charges {
        add_charge(text, charge)?;
    }
    for receipt in &found.receipts {
        add_receipt(text, receipt)?;
    }
    write!(text, " / balance {}", found.balance)
}

fn statement_text(alloc: Global, found: &Statement) -> Result<String, AllocError> {
    let mut text = String::new(alloc);
    add_statement(&mut text, found)?;
    Ok(text)
}

fn add_debt(text: &mut String, debt: &Debt) -> Result<(), AllocError> {
    let name = debt.name.as_ref().map_or("nobody", |name| name.as_str());
    write!(
        text,
        "{} {} {} {} / ",
        debt.lease, debt.client, debt.balance, name
    )
}

// The leases on which rent is owed, and the sum.
fn arrears_text(alloc: Global, found: &Arrears) -> Result<String, AllocError> {
    let mut text = String::new(alloc);
    for debt in &found.debts {
        add_debt(&mut text, debt)?;
    }
    write!(text, "total {}", found.total)?;
    Ok(text)
}

fn add_part_sum(text: &mut String, part: &Part) -> Result<(), AllocError> {
    write!(text, "{} {} {} / ", part.branch, part.count, part.total)
}

// The branches' parts, and the sum.
fn run_text(alloc: Global, found: &RunReport) -> Result<String, AllocError> {
    let mut text = String::new(alloc);
    for part in &found.parts {
        add_part_sum(&mut text, part)?;
    }
    let sum = &found.sum;
    write!(text, "{} {} {}", sum.month, sum.count, sum.total)?;
    Ok(text)
}

fn add_owned(text: &mut String, line: &OwnerLine) -> Result<(), AllocError> {
    write!(
        text,
        "{} {} {} {} / ",
        line.lease, line.property, line.amount, line.fee
    )
}

// What was charged on the owner's properties, with what the branches take of it, both sums, and what is left.
fn owner_text(alloc: Global, found: &OwnerStatement) -> Result<String, AllocError> {
    let mut text = String::new(alloc);
    for line in &found.lines {
        add_owned(&mut text, line)?;
    }
    write!(
        text,
        "total {} {} / payable {}",
        found.total, found.fees, found.payable
    )?;
    Ok(text)
}

/// The answer as a text: branches as their lines, properties as their numbers, a refusal as what it prints.
pub fn answer_text(alloc: Global, answer: &Answer) -> Result<String, AllocError> {
    match answer {
        Answer::Branches(rows) => lines_of(alloc, rows),
        Answer::Vacant(rows) => numbers_of(alloc, rows),
        Answer::Matching(rows) => numbers_of(alloc, rows),
        Answer::Statement(found) => statement_text(alloc, found),
        Answer::Arrears(found) => arrears_text(alloc, found),
        Answer::Run(found) => run_text(alloc, found),
        Answer::Owner(found) => owner_text(alloc, found),
        Answer::Refused(refusal) => refusal.to_string(alloc),
    }
}
