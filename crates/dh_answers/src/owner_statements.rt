//! What an owner is told of a month.

ghost use Rattle.std.specs.Prelude.{◌≡◌, ◌^◌, ◌<◌, IfOk};
ghost use Rattle.std.specs.List.{sum_by};
ghost use Rattle.std.specs.FinMap as fin;
ghost use Rattle.dh_types.specs.Reports.{report_of};
ghost use Rattle.dh_model.specs.Runs.{charge_fee};
ghost use Rattle.dh_model.specs.Answers.{fee_of_part, owner_charges, owner_line, owner_lines, owner_report};

use dh_books::Books;
use dh_leases::charge_fee;
use dh_types::{
    Answer, Balance, Charge, EntryMonth, Fee, Id, OwnerLine, OwnerMonth, OwnerStatement, Pence,
    Property, Refusal, field,
};
use std::alloc::{AllocError, Global};

// The fee that the branch had in the month: nothing where it has no part of the run.
fn fee_then(books: &Books, month: EntryMonth, branch: &Id) -> Fee
    ensures { result ≡ fee_of_part (fin.get books.now.books.part_fees (month, branch.now)) }
{
    match books.part_fee(&(month, *branch)) {
        Some(part) => part.fee,
        None => Fee::of_number(0),
    }
}

// The line of a charge on the property: what was charged, and what the branch takes of it.
fn line(books: &Books, charge: &Charge, property: &Property) -> OwnerLine
    ensures { result ≡ record {
      lease = charge.now.lease;
      property = property.now.number;
      amount = charge.now.amount;
      fee = charge_fee (fee_of_part (fin.get books.now.books.part_fees (charge.now.month, property.now.branch))) charge.now;
    } }
{
    let fee = fee_then(books, charge.month, &property.branch);
    OwnerLine {
        lease: charge.lease,
        property: property.number,
        amount: charge.amount,
        fee: Pence::of_pence(charge_fee(fee, charge)),
    }
}

// The line of the charge, where it is of the month and on a property of the owner.
fn owner_line(books: &Books, asked: OwnerMonth, charge: &Charge) -> Option<OwnerLine>
    ensures { result ≡ owner_line books.now.books asked charge.now }
{
    if charge.month != asked.month {
        return None;
    }
    let lease = books.lease(&charge.lease)?;
    let property = books.property(&lease.terms.property)?;
    if property.owner == asked.owner {
        Some(line(books, charge, property))
    } else {
        None
    }
}

fn owner_lines(
    alloc: Global,
    books: &Books,
    asked: OwnerMonth,
) -> Result<Vec<OwnerLine>, AllocError>
    ensures { IfOk result (λ lines. lines.items ≡ owner_lines books.now.books asked) }
{
    books
        .charges()
        .filter_map(|charge| owner_line(books, asked, charge))
        .collect(alloc)
}

// What was charged in all, and what the branches take of it.
fn sums_of(lines: &[OwnerLine]) -> (u128, u128)
    ensures total { result.0 ≡ sum_by (λ line. line.amount) lines.now }
    ensures fees { result.1 ≡ sum_by (λ line. line.fee) lines.now }
    ensures range { (result.0 < 2 ^ 127) × (result.1 < 2 ^ 127) }
{
    let mut total = 0u128;
    let mut fees = 0u128;
    for line in lines {
        total += u128::from(line.amount.pence());
        fees += u128::from(line.fee.pence());
    }
    (total, fees)
}

// The lines with both sums, and what is left.
fn owner_charges(lines: Vec<OwnerLine>) -> Answer
    ensures { report_of result ≡ owner_charges lines.items }
{
    let (total, fees) = sums_of(&lines);
    let (total, fees) = (total as i128, fees as i128);
    Answer::Owner(OwnerStatement {
        lines,
        total: Balance::of_pence(total),
        fees: Balance::of_pence(fees),
        payable: Balance::of_pence(total - fees),
    })
}

/// What the month's run charged on the owner's properties, rising by lease, each with what the branch of the property takes of it by the
/// fee that it had as the run was opened; both sums in pence, and what is left; refused 2 with field 3 where no owner has the number, and
/// refused 14 where the month has no run or an open one. It fails where memory runs out.
pub(crate) fn owner_statement(
    alloc: Global,
    books: &Books,
    asked: OwnerMonth,
) -> Result<Answer, AllocError>
    ensures { IfOk result (λ answer. report_of answer
        ≡ owner_report books.now.books asked (fin.get books.now.books.owners asked.owner) (fin.get books.now.books.runs asked.month)) }
{
    if books.owner(&asked.owner).is_none() {
        return Ok(Answer::Refused(Refusal::Unknown(field::ASKED_ABOUT)));
    }
    match books.run(&asked.month) {
        Some(run) if run.is_closed => Ok(owner_charges(owner_lines(alloc, books, asked)?)),
        _ => Ok(Answer::Refused(Refusal::NoRun)),
    }
}
