//! The rules of the audit, all at once and one by one.

use dh_audit_rules::{
    closed_months_are_in_order, deposits_in_order, endings_in_order, fees_in_order, keys_in_order,
    leases_in_time, leases_never_overlap, manages_at_most_hundred, months_in_order,
    names_what_is_there, one_start_a_day, open_months_are_in_order, runs_in_order,
    staff_of_the_branch,
};
use dh_books::Books;
use dh_rules::audit;
use dh_test_kit::{Answer, Unreadable};
use std::alloc::{AllocError, Global};

// Whether all rules hold, else the least that is broken.
fn broken(alloc: Global, books: &Books) -> Result<Result<(), u8>, AllocError> {
    audit(alloc, books)
}

/// `audit`: the least rule that is broken, or `ok`.
pub(crate) fn audited(alloc: Global, books: &Books) -> Answer {
    match broken(alloc, books)? {
        Ok(()) => Ok("ok".to_string(alloc)?),
        Err(rule) => Ok(rule.to_string(alloc)?),
    }
}

fn holds(alloc: Global, books: &Books, rule: &str) -> Result<bool, Unreadable> {
    match rule {
        "1" => Ok(names_what_is_there(books)),
        "2" => Ok(staff_of_the_branch(books)),
        "3" => Ok(manages_at_most_hundred(alloc, books)?),
        "4" => Ok(leases_never_overlap(alloc, books)?),
        "5" => Ok(one_start_a_day(alloc, books)?),
        "6" => Ok(leases_in_time(books)),
        "7" => Ok(deposits_in_order(alloc, books)?),
        "8" => Ok(keys_in_order(alloc, books)?),
        "9" => Ok(runs_in_order(books)),
        "10" => Ok(months_in_order(alloc, books)?),
        "11" => Ok(fees_in_order(alloc, books)?),
        "12" => Ok(endings_in_order(books)),
        "10 closed" => Ok(closed_months_are_in_order(alloc, books)?),
        "10 open" => Ok(open_months_are_in_order(alloc, books)?),
        _ => Err(Unreadable),
    }
}

/// `rule,N`: whether the rule is kept or broken; of rule 10 also for closed or open months alone.
pub(crate) fn is_kept(alloc: Global, books: &Books, rule: &str) -> Answer {
    let text = if holds(alloc, books, rule)? {
        "kept"
    } else {
        "broken"
    };
    Ok(text.to_string(alloc)?)
}
