//! Runs: the months that they stand under, and which of them are closed.

ghost use Rattle.std.specs.Prelude.{◌≡◌, ◌↔◌, ◌<◌, ◌+◌, true};
ghost use Rattle.dh_model.specs.Rules.{Each, RunsInOrder};
ghost use Rattle.dh_audit_rules.specs.Months.{RunsAreMonths};

use dh_books::Books;

// Whether the runs stand under the months from the first to the one before the next.
fn months_have_runs(books: &Books) -> bool
    ensures { (result ≡ true) ↔ RunsAreMonths books.now.books }
{
    let mut expected = books.first().number();
    for month in books.run_months() {
        if month.number() != expected {
            return false;
        }
        expected += 1;
    }
    expected == books.next().number()
}

/// Whether the runs are those of the months from the first to the one before the next, and all but the last are closed.
pub fn runs_in_order(books: &Books) -> bool
    ensures { (result ≡ true) ↔ RunsInOrder books.now.books }
{
    let next = books.next().number();
    months_have_runs(books)
        && books
            .runs()
            .all(|run| run.is_closed || run.month.number() + 1 >= next)
}
