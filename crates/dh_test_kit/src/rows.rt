//! The rows of the books.

use crate::Unreadable;
use crate::account_rows::{branch_fee, charge, ending, lease, part, part_fee, receipt, run};
use crate::fields::Fields;
use crate::requests::command;
use dh_types::{
    Branch, BranchFee, Charge, Client, Command, Ending, Inspection, Lease, Month, Owner, Part,
    PartFee, Property, Receipt, Registration, Run, Staff, Viewing,
};
use std::alloc::Global;

/// A row of the books, or the month whose rent is to be run next.
#[derive(Drop)]
pub enum Row {
    Branch(Branch),
    Staff(Staff),
    Owner(Owner),
    Property(Property),
    Client(Client),
    Registration(Registration),
    Viewing(Viewing),
    Inspection(Inspection),
    Lease(Lease),
    Ending(Ending),
    Charge(Charge),
    Receipt(Receipt),
    Run(Run),
    Part(Part),
    BranchFee(BranchFee),
    PartFee(PartFee),
    Next(Month),
}

// The row that the command adds as it is.
fn row_added(command: Command) -> Result<Row, Unreadable> {
    match command {
        Command::Branch(it) => Ok(Row::Branch(it)),
        Command::Staff(it) => Ok(Row::Staff(it)),
        Command::Owner(it) => Ok(Row::Owner(it)),
        Command::Property(it) => Ok(Row::Property(it)),
        Command::Client(it) => Ok(Row::Client(it)),
        Command::Register(it) => Ok(Row::Registration(it)),
        Command::Viewing(it) => Ok(Row::Viewing(it)),
        Command::Inspection(it) => Ok(Row::Inspection(it)),
        _ => Err(Unreadable),
    }
}

/// The row that these words are; an error where they are none. A row that a command adds has the command's words; a lease
/// has its rent behind them, and a receipt its number before them.
pub fn row_of(alloc: Global, words: &str) -> Result<Row, Unreadable> {
    let (kind, rest) = words.split_once(',').ok_or(Unreadable)?;
    let mut fields = Fields::of(rest);
    match kind {
        "lease" => lease(alloc, words).map(Row::Lease),
        "ending" => ending(&mut fields).map(Row::Ending),
        "charge" => charge(&mut fields).map(Row::Charge),
        "receipt" => receipt(alloc, rest).map(Row::Receipt),
        "run" => run(&mut fields).map(Row::Run),
        "part" => part(&mut fields).map(Row::Part),
        "branch fee" => branch_fee(&mut fields).map(Row::BranchFee),
        "part fee" => part_fee(&mut fields).map(Row::PartFee),
        "next" => fields.any_month().map(Row::Next),
        _ => row_added(command(alloc, words)?),
    }
}
