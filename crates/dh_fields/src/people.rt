//! The lines of branches and of people. Each function gives the command of the line above it. `Field` has the number of
//! the first bad field, and `Memory` is want of memory.

ghost use Rattle.dh_fields.specs.Lines.{branch_form, client_form, fee_form, owner_form, register_form, staff_form};
ghost use Rattle.dh_fields.specs.Readings.{ReadsForm};

use crate::line::Line;
use crate::unread::Unread;
use dh_types::{Branch, BranchFee, Client, Command, Owner, Registration, Staff};
use std::alloc::Global;

/// branch,NUMBER,STREET,CITY,POSTCODE
pub(crate) fn read_branch(alloc: Global, line: &Line) -> Result<Command, Unread>
    ensures { ReadsForm branch_form 1 line.now result }
{
    let branch = Branch {
        number: line.id(2)?,
        street: line.some_text(alloc, 3)?,
        city: line.some_text(alloc, 4)?,
        postcode: line.some_text(alloc, 5)?,
    };
    line.end(5)?;
    Ok(Command::Branch(branch))
}

/// fee,BRANCH,FEE
pub(crate) fn read_fee(line: &Line) -> Result<Command, Unread>
    ensures { ReadsForm fee_form 1 line.now result }
{
    let fee = BranchFee {
        branch: line.id(2)?,
        fee: line.count(3)?,
    };
    line.end(3)?;
    Ok(Command::Fee(fee))
}

/// staff,NUMBER,NAME,POSITION,BRANCH
pub(crate) fn read_staff(alloc: Global, line: &Line) -> Result<Command, Unread>
    ensures { ReadsForm staff_form 1 line.now result }
{
    let staff = Staff {
        number: line.id(2)?,
        name: line.some_text(alloc, 3)?,
        position: line.position(4)?,
        branch: line.id(5)?,
    };
    line.end(5)?;
    Ok(Command::Staff(staff))
}

/// owner,NUMBER,NAME,ADDRESS,TELEPHONE
pub(crate) fn read_owner(alloc: Global, line: &Line) -> Result<Command, Unread>
    ensures { ReadsForm owner_form 1 line.now result }
{
    let owner = Owner {
        number: line.id(2)?,
        name: line.some_text(alloc, 3)?,
        address: line.some_text(alloc, 4)?,
        telephone: line.some_text(alloc, 5)?,
    };
    line.end(5)?;
    Ok(Command::Owner(owner))
}

/// client,NUMBER,NAME,TELEPHONE,TYPE,GREATEST RENT
pub(crate) fn read_client(alloc: Global, line: &Line) -> Result<Command, Unread>
    ensures { ReadsForm client_form 1 line.now result }
{
    let client = Client {
        number: line.id(2)?,
        name: line.some_text(alloc, 3)?,
        telephone: line.some_text(alloc, 4)?,
        preferred_type: line.property_type(5)?,
        greatest_rent: line.money(6)?,
    };
    line.end(6)?;
    Ok(Command::Client(client))
}

/// register,CLIENT,BRANCH,STAFF,DAY
pub(crate) fn read_register(line: &Line) -> Result<Command, Unread>
    ensures { ReadsForm register_form 1 line.now result }
{
    let registration = Registration {
        client: line.id(2)?,
        branch: line.id(3)?,
        staff: line.id(4)?,
        day: line.day(5)?,
    };
    line.end(5)?;
    Ok(Command::Register(registration))
}
