//! Leases that are ended early.

ghost use Rattle.std.specs.Prelude.{◌≡◌, Some};
ghost use Rattle.std.specs.FinMap.{get};
ghost use Rattle.dh_model.specs.Checks.{first_failing};
ghost use Rattle.dh_model.specs.Verdicts.{decided, end_ruling, ending_checks, ending_rows};

use dh_books::Books;
use dh_model::{Change, Verdict};
use dh_types::{Ending, Lease, Refusal, Reply, field};

// The first check that the end of the lease fails.
fn ending_refusal(books: &Books, ending: &Ending, lease: &Lease) -> Option<Refusal>
    ensures { result ≡ first_failing (ending_checks books.now.books ending.now (Some lease.now)) }
{
    let length = books.length_of(lease);
    if ending.months >= length {
        return Some(Refusal::NotShorter(length));
    }
    let next = books.next();
    let after = lease.terms.start.day().month().number() + ending.months.number();
    if after < next.number() {
        Some(Refusal::MonthPosted(next))
    } else {
        None
    }
}

// The ending as the row that it is, which is new or takes the place of another.
fn ending_rows(books: &Books, ending: &Ending) -> Change
    ensures { result ≡ ending_rows ending.now (get books.now.books.endings ending.now.lease) }
{
    match books.ending(&ending.lease) {
        None => Change::NewEnding(*ending),
        Some(_) => Change::Ending(*ending),
    }
}

/// What the books say of the early end of a lease: that it is there, that it runs for more months than these, and that none of the
/// months that were run is taken back.
pub(crate) fn decide_end(books: &Books, ending: &Ending) -> Verdict
    ensures { result ≡ decided (end_ruling books.now.books ending.now) }
{
    let Some(lease) = books.lease(&ending.lease) else {
        return Verdict::Refused(Refusal::Unknown(field::ENDED_LEASE));
    };
    if ending.months == books.length_of(lease) {
        return Verdict::Already(Reply::Already);
    }
    match ending_refusal(books, ending, lease) {
        Some(refusal) => Verdict::Refused(refusal),
        None => Verdict::Change(ending_rows(books, ending)),
    }
}
