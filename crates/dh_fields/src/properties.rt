//! The lines of properties and of what is done about them. Each function gives the command of the line above it. `Field` has the number of
//! the first bad field, and `Memory` is want of memory.

ghost use Rattle.std.specs.Prelude.{drop, false};
ghost use Rattle.dh_fields.specs.Lines.{assign_form, comment_form, inspection_form, property_form, rent_form, tests_of, viewing_form};
ghost use Rattle.dh_fields.specs.PropertyFields.{particulars_of};
ghost use Rattle.dh_fields.specs.Readings.{Gives, ReadsForm, bad_from};

use crate::line::Line;
use crate::unread::Unread;
use dh_types::{
    Assignment, Command, Id, Inspection, Property, PropertyType, Rent, RentChange, Rooms, Viewing,
    ViewingComment,
};
use std::alloc::Global;

// The fields of a property behind its address: those that own no memory.
#[derive(Clone, Copy)]
struct Particulars {
    property_type: PropertyType,
    rooms: Rooms,
    rent: Rent,
    owner: Id,
    staff: Option<Id>,
    branch: Id,
}

fn read_particulars(line: &Line) -> Result<Particulars, Unread>
    ensures { Gives result (bad_from 6 (drop 4 (tests_of property_form)) line.now) false (particulars_of line.now) }
{
    let particulars = Particulars {
        property_type: line.property_type(6)?,
        rooms: line.count(7)?,
        rent: line.money(8)?,
        owner: line.id(9)?,
        staff: line.id_if_any(10)?,
        branch: line.id(11)?,
    };
    line.end(11)?;
    Ok(particulars)
}

/// property,NUMBER,STREET,CITY,POSTCODE,TYPE,ROOMS,RENT,OWNER,STAFF,BRANCH
pub(crate) fn read_property(alloc: Global, line: &Line) -> Result<Command, Unread>
    ensures { ReadsForm property_form 1 line.now result }
{
    // Read first and judged last: only one way out has all three texts to let go.
    let particulars = read_particulars(line);
    let number = line.id(2)?;
    let street = line.some_text(alloc, 3)?;
    let city = line.some_text(alloc, 4)?;
    let postcode = line.some_text(alloc, 5)?;
    let particulars = particulars?;
    Ok(Command::Property(Property {
        number,
        street,
        city,
        postcode,
        property_type: particulars.property_type,
        rooms: particulars.rooms,
        rent: particulars.rent,
        owner: particulars.owner,
        staff: particulars.staff,
        branch: particulars.branch,
    }))
}

/// assign,PROPERTY,STAFF
pub(crate) fn read_assign(line: &Line) -> Result<Command, Unread>
    ensures { ReadsForm assign_form 1 line.now result }
{
    let assignment = Assignment {
        property: line.id(2)?,
        staff: line.id_if_any(3)?,
    };
    line.end(3)?;
    Ok(Command::Assign(assignment))
}

/// rent,PROPERTY,RENT
pub(crate) fn read_rent(line: &Line) -> Result<Command, Unread>
    ensures { ReadsForm rent_form 1 line.now result }
{
    let change = RentChange {
        property: line.id(2)?,
        rent: line.money(3)?,
    };
    line.end(3)?;
    Ok(Command::Rent(change))
}

/// viewing,CLIENT,PROPERTY,DAY,COMMENT
pub(crate) fn read_viewing(alloc: Global, line: &Line) -> Result<Command, Unread>
    ensures { ReadsForm viewing_form 1 line.now result }
{
    let viewing = Viewing {
        client: line.id(2)?,
        property: line.id(3)?,
        day: line.day(4)?,
        comment: line.comment_if_any(alloc, 5)?,
    };
    line.end(5)?;
    Ok(Command::Viewing(viewing))
}

/// comment,CLIENT,PROPERTY,COMMENT
pub(crate) fn read_comment(alloc: Global, line: &Line) -> Result<Command, Unread>
    ensures { ReadsForm comment_form 1 line.now result }
{
    let comment = ViewingComment {
        client: line.id(2)?,
        property: line.id(3)?,
        comment: line.some_text(alloc, 4)?,
    };
    line.end(4)?;
    Ok(Command::Comment(comment))
}

/// inspection,PROPERTY,DAY,STAFF,COMMENT
pub(crate) fn read_inspection(alloc: Global, line: &Line) -> Result<Command, Unread>
    ensures { ReadsForm inspection_form 1 line.now result }
{
    let inspection = Inspection {
        property: line.id(2)?,
        day: line.day(3)?,
        staff: line.id(4)?,
        comment: line.some_text(alloc, 5)?,
    };
    line.end(5)?;
    Ok(Command::Inspection(inspection))
}
