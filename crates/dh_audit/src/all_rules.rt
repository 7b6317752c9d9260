//! All rules.

ghost use Rattle.std.specs.Prelude.{IfOk};
ghost use Rattle.std.specs.Result.{MatchResult};
ghost use Rattle.dh_model.specs.Rules.{MeetsRules};
ghost use Rattle.dh_model.specs.Runs.{batch_size};
ghost use Rattle.dh_audit.specs.Audit.{HoldBelow, IsLeastBroken};

use dh_audit_rules::{
    deposits_in_order, endings_in_order, fees_in_order, keys_in_order, leases_in_time,
    leases_never_overlap, manages_at_most_hundred, months_in_order, names_what_is_there,
    one_start_a_day, runs_in_order, staff_of_the_branch,
};
use dh_books::Books;
use std::alloc::{AllocError, Global};

// Whether rules 1 to 8 hold, those of single rows and of what rows share; else the least of them that is broken.
fn audit_of_rows(alloc: Global, books: &Books) -> Result<Result<(), u8>, AllocError>
    ensures { IfOk result (λ found. MatchResult found (λ _. HoldBelow books.now.books batch_size 9) (IsLeastBroken books.now.books batch_size)) }
{
    if !names_what_is_there(books) {
        return Ok(Err(1));
    }
    if !staff_of_the_branch(books) {
        return Ok(Err(2));
    }
    if !manages_at_most_hundred(alloc, books)? {
        return Ok(Err(3));
    }
    if !leases_never_overlap(alloc, books)? {
        return Ok(Err(4));
    }
    if !one_start_a_day(alloc, books)? {
        return Ok(Err(5));
    }
    if !leases_in_time(books) {
        return Ok(Err(6));
    }
    if !deposits_in_order(alloc, books)? {
        return Ok(Err(7));
    }
    if !keys_in_order(alloc, books)? {
        return Ok(Err(8));
    }
    Ok(Ok(()))
}

/// Whether all rules hold; else `Err` of the least that is broken, by its number. It fails where memory runs out.
pub fn audit(alloc: Global, books: &Books) -> Result<Result<(), u8>, AllocError>
    ensures { IfOk result (λ found. MatchResult found (λ _. MeetsRules books.now.books batch_size) (IsLeastBroken books.now.books batch_size)) }
{
    if let Err(rule) = audit_of_rows(alloc, books)? {
        return Ok(Err(rule));
    }
    if !runs_in_order(books) {
        return Ok(Err(9));
    }
    if !months_in_order(alloc, books)? {
        return Ok(Err(10));
    }
    if !fees_in_order(alloc, books)? {
        return Ok(Err(11));
    }
    if !endings_in_order(books) {
        return Ok(Err(12));
    }
    Ok(Ok(()))
}
