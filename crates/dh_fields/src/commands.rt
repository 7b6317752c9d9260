//! The lines that are commands.

ghost use Rattle.dh_fields.specs.Lines.{command_forms, value_among};
ghost use Rattle.dh_fields.specs.Readings.{IsAsWanted, wants_among};

use crate::leases::{read_end, read_lease, read_open, read_post, read_receipt, read_run};
use crate::line::Line;
use crate::people::{read_branch, read_client, read_fee, read_owner, read_register, read_staff};
use crate::properties::{
    read_assign, read_comment, read_inspection, read_property, read_rent, read_viewing,
};
use crate::unread::Unread;
use dh_types::Command;
use std::alloc::Global;

/// The command that the line is. `Field` has the number of its first bad field, which is 1 where its word is unknown.
pub(crate) fn read_command(alloc: Global, line: &Line) -> Result<Command, Unread>
    ensures { IsAsWanted result (value_among command_forms 1 line.now) (wants_among command_forms 1 line.now) }
{
    match line.text(1)? {
        "branch" => read_branch(alloc, line),
        "fee" => read_fee(line),
        "staff" => read_staff(alloc, line),
        "owner" => read_owner(alloc, line),
        "property" => read_property(alloc, line),
        "assign" => read_assign(line),
        "rent" => read_rent(line),
        "client" => read_client(alloc, line),
        "register" => read_register(line),
        "viewing" => read_viewing(alloc, line),
        "comment" => read_comment(alloc, line),
        "inspection" => read_inspection(alloc, line),
        "lease" => read_lease(line),
        "end" => read_end(line),
        "receipt" => read_receipt(line),
        "run" => read_run(line),
        "open" => read_open(line),
        "post" => read_post(line),
        _ => Err(Unread::Field(1)),
    }
}
