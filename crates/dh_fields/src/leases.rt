//! The lines of leases, receipts and rent runs. Each function gives the command of the line above it. `Field` has the number of
//! the first bad field, and `Memory` is want of memory.

ghost use Rattle.dh_fields.specs.Lines.{end_form, lease_form, open_form, post_form, receipt_form, run_form};
ghost use Rattle.dh_fields.specs.Readings.{ReadsForm};

use crate::line::Line;
use crate::unread::Unread;
use dh_types::{Command, Ending, LeaseTerms, Payment, ReceiptOrder, RunOrder};

/// lease,NUMBER,CLIENT,PROPERTY,START,MONTHS,METHOD
pub(crate) fn read_lease(line: &Line) -> Result<Command, Unread>
    ensures { ReadsForm lease_form 1 line.now result }
{
    let terms = LeaseTerms {
        number: line.count(2)?,
        client: line.id(3)?,
        property: line.id(4)?,
        start: line.day(5)?,
        months: line.count(6)?,
        method: line.method(7)?,
    };
    line.end(7)?;
    Ok(Command::Lease(terms))
}

/// end,LEASE,MONTHS
pub(crate) fn read_end(line: &Line) -> Result<Command, Unread>
    ensures { ReadsForm end_form 1 line.now result }
{
    let ending = Ending {
        lease: line.count(2)?,
        months: line.count(3)?,
    };
    line.end(3)?;
    Ok(Command::End(ending))
}

/// receipt,KEY,LEASE,KIND,AMOUNT,DAY
pub(crate) fn read_receipt(line: &Line) -> Result<Command, Unread>
    ensures { ReadsForm receipt_form 1 line.now result }
{
    let order = ReceiptOrder {
        key: line.key(2)?,
        payment: Payment {
            lease: line.count(3)?,
            kind: line.receipt_kind(4)?,
            amount: line.money(5)?,
            day: line.day(6)?,
        },
    };
    line.end(6)?;
    Ok(Command::Receipt(order))
}

/// run,KEY,MONTH
pub(crate) fn read_run(line: &Line) -> Result<Command, Unread>
    ensures { ReadsForm run_form 1 line.now result }
{
    let order = RunOrder {
        key: line.key(2)?,
        month: line.month(3)?,
    };
    line.end(3)?;
    Ok(Command::Run(order))
}

/// open,KEY,MONTH
pub(crate) fn read_open(line: &Line) -> Result<Command, Unread>
    ensures { ReadsForm open_form 1 line.now result }
{
    let order = RunOrder {
        key: line.key(2)?,
        month: line.month(3)?,
    };
    line.end(3)?;
    Ok(Command::Open(order))
}

/// post,N
pub(crate) fn read_post(line: &Line) -> Result<Command, Unread>
    ensures { ReadsForm post_form 1 line.now result }
{
    let most = line.count(2)?;
    line.end(2)?;
    Ok(Command::Post(most))
}
