//! Rows, found under their keys.

use dh_books::Books;
use dh_test_kit::{Answer, Fields, ToLine, Unreadable};
use std::alloc::Global;

fn line_of<T: ToLine>(alloc: Global, row: Option<&T>) -> Answer {
    match row {
        Some(row) => Ok(row.to_line(alloc)?),
        None => Ok("none".to_string(alloc)?),
    }
}

/// `find,KIND,KEY`: the row, or `none`.
pub(crate) fn found(alloc: Global, books: &Books, fields: &mut Fields) -> Answer {
    match fields.text()? {
        "branch" => line_of(alloc, books.branch(&fields.id()?)),
        "staff" => line_of(alloc, books.member(&fields.id()?)),
        "owner" => line_of(alloc, books.owner(&fields.id()?)),
        "property" => line_of(alloc, books.property(&fields.id()?)),
        "client" => line_of(alloc, books.client(&fields.id()?)),
        "registration" => line_of(alloc, books.registration(&fields.ids()?)),
        "viewing" => line_of(alloc, books.viewing(&fields.ids()?)),
        "inspection" => line_of(alloc, books.inspection(&fields.id_and_day()?)),
        "lease" => line_of(alloc, books.lease(&fields.lease_no()?)),
        "ending" => line_of(alloc, books.ending(&fields.lease_no()?)),
        "branch fee" => line_of(alloc, books.branch_fee(&fields.id()?)),
        "charge" => line_of(alloc, books.charge(&fields.lease_and_index()?)),
        "receipt" => line_of(alloc, books.receipt(&fields.receipt_no()?)),
        "run" => line_of(alloc, books.run(&fields.month()?)),
        "part" => line_of(alloc, books.part(&fields.month_and_id()?)),
        "part fee" => line_of(alloc, books.part_fee(&fields.month_and_id()?)),
        _ => Err(Unreadable),
    }
}
