//! The rows of leases, of their early ends, of what is charged and paid on them, of rent runs, and of fees.

use crate::Unreadable;
use crate::fields::Fields;
use crate::requests::command;
use dh_types::{
    BranchFee, Charge, Command, Ending, Lease, Part, PartFee, Receipt, ReceiptNo, Rent, Run,
};
use std::alloc::Global;

// The lease that the command makes, at this rent.
fn lease_made(command: &Command, rent: Rent) -> Result<Lease, Unreadable> {
    match command {
        Command::Lease(terms) => Ok(Lease {
            terms: *terms,
            rent,
        }),
        _ => Err(Unreadable),
    }
}

/// `COMMAND,RENT`, with the whole command that makes the lease.
pub(crate) fn lease(alloc: Global, words: &str) -> Result<Lease, Unreadable> {
    let (made, rent) = words.rsplit_once(',').ok_or(Unreadable)?;
    let rent = Rent::read(rent)?;
    lease_made(&command(alloc, made)?, rent)
}

/// `LEASE,MONTHS`
pub(crate) fn ending(fields: &mut Fields) -> Result<Ending, Unreadable> {
    Ok(Ending {
        lease: fields.lease_no()?,
        months: fields.lease_months()?,
    })
}

/// `LEASE,INDEX,MONTH,DAY,AMOUNT`
pub(crate) fn charge(fields: &mut Fields) -> Result<Charge, Unreadable> {
    Ok(Charge {
        lease: fields.lease_no()?,
        index: fields.charge_index()?,
        month: fields.month()?,
        day: fields.due_day()?,
        amount: fields.rent()?,
    })
}

// The receipt that the command makes, under this number.
fn receipt_made(command: &Command, number: ReceiptNo) -> Result<Receipt, Unreadable> {
    match command {
        Command::Receipt(order) => Ok(Receipt {
            number,
            key: order.key,
            payment: order.payment,
        }),
        _ => Err(Unreadable),
    }
}

/// `NUMBER,FIELDS`, with the fields of the command that makes the receipt.
pub(crate) fn receipt(alloc: Global, words: &str) -> Result<Receipt, Unreadable> {
    let (number, made) = words.split_once(',').ok_or(Unreadable)?;
    let number = Fields::of(number).receipt_no()?;
    let made = format!(in alloc; "receipt,{made}")?;
    receipt_made(&command(alloc, made.as_str())?, number)
}

fn is_closed(fields: &mut Fields) -> Result<bool, Unreadable> {
    match fields.text()? {
        "closed" => Ok(true),
        "open" => Ok(false),
        _ => Err(Unreadable),
    }
}

/// `MONTH,KEY,COUNT,TOTAL,STATE`
pub(crate) fn run(fields: &mut Fields) -> Result<Run, Unreadable> {
    Ok(Run {
        month: fields.month()?,
        key: fields.key()?,
        count: fields.number()?,
        total: fields.pence()?,
        is_closed: is_closed(fields)?,
    })
}

/// `MONTH,BRANCH,THROUGH,COUNT,TOTAL`
pub(crate) fn part(fields: &mut Fields) -> Result<Part, Unreadable> {
    Ok(Part {
        month: fields.month()?,
        branch: fields.id()?,
        through: fields.lease_no_if_any()?,
        count: fields.number()?,
        total: fields.pence()?,
    })
}

/// `BRANCH,FEE`
pub(crate) fn branch_fee(fields: &mut Fields) -> Result<BranchFee, Unreadable> {
    Ok(BranchFee {
        branch: fields.id()?,
        fee: fields.fee()?,
    })
}

/// `MONTH,BRANCH,FEE,TOTAL`
pub(crate) fn part_fee(fields: &mut Fields) -> Result<PartFee, Unreadable> {
    Ok(PartFee {
        month: fields.month()?,
        branch: fields.id()?,
        fee: fields.fee()?,
        total: fields.pence()?,
    })
}
