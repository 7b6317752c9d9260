//! Books once more: a question takes the books that it is asked of, and a script goes on with its own.

use dh_books::Books;
use std::alloc::{AllocError, Global};

fn copy_people(alloc: Global, from: &Books, to: &mut Books) -> Result<(), AllocError> {
    for branch in from.branches() {
        to.put_branch(branch.try_clone(alloc)?)?;
    }
    for member in from.staff() {
        to.put_member(member.try_clone(alloc)?)?;
    }
    for owner in from.owners() {
        to.put_owner(owner.try_clone(alloc)?)?;
    }
    for client in from.clients() {
        to.put_client(client.try_clone(alloc)?)?;
    }
    Ok(())
}

fn copy_properties(alloc: Global, from: &Books, to: &mut Books) -> Result<(), AllocError> {
    for property in from.properties() {
        to.put_property(property.try_clone(alloc)?)?;
    }
    for registration in from.registrations() {
        to.put_registration(*registration)?;
    }
    for viewing in from.viewings() {
        to.put_viewing(viewing.try_clone(alloc)?)?;
    }
    for inspection in from.inspections() {
        to.put_inspection(inspection.try_clone(alloc)?)?;
    }
    Ok(())
}

fn copy_leases(from: &Books, to: &mut Books) -> Result<(), AllocError> {
    for lease in from.leases() {
        to.put_lease(*lease)?;
    }
    for charge in from.charges() {
        to.put_charge(*charge)?;
    }
    for receipt in from.receipts() {
        to.put_receipt(*receipt)?;
    }
    for ending in from.endings() {
        to.put_ending(*ending)?;
    }
    Ok(())
}

fn copy_runs(from: &Books, to: &mut Books) -> Result<(), AllocError> {
    for run in from.runs() {
        to.put_run(*run)?;
    }
    for part in from.parts() {
        to.put_part(*part)?;
    }
    Ok(())
}

fn copy_fees(from: &Books, to: &mut Books) -> Result<(), AllocError> {
    for it in from.branch_fees() {
        to.put_branch_fee(*it)?;
    }
    for it in from.part_fees() {
        to.put_part_fee(*it)?;
    }
    Ok(())
}

/// A copy of the books, of the same version. It fails where memory runs out.
pub fn copy_of(alloc: Global, books: &Books) -> Result<Books, AllocError> {
    let mut copy = Books::new(alloc, books.version(), books.first(), books.next());
    copy.set_open_run(books.open_run());
    copy_people(alloc, books, &mut copy)?;
    copy_properties(alloc, books, &mut copy)?;
    copy_leases(books, &mut copy)?;
    copy_runs(books, &mut copy)?;
    copy_fees(books, &mut copy)?;
    Ok(copy)
}
