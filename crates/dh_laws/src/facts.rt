//! What a command looks at. Read `judged_by_its_facts` first.

ghost use Rattle.std.specs.Prelude.{ℕ};
ghost use Rattle.dh_laws.specs.Looks.{AcceptedChangesFit, JudgedByItsFacts, LastNumberIsCount, OpenMonthIsLast, OpenRunIsLast};

/// What a command looks at decides its verdict, in keyed books.
pub fn judged_by_its_facts()
    ensures { JudgedByItsFacts }
{}

/// In keyed books that meet the rule on keys, there are as many receipts as the greatest number of one.
pub fn last_number_is_count()
    ensures { LastNumberIsCount }
{}

/// In keyed books that meet the rule on months, the open run is that of the month before the next, or none is open.
pub fn open_run_is_last()
    ensures { OpenRunIsLast }
{}

/// So the run that such books show has that month.
pub fn open_month_is_last()
    ensures { (size : ℕ) → OpenMonthIsLast size }
{}

/// The rows of an accepted command fit in books in order: what is added has a new key, and what is changed is there.
pub fn accepted_changes_fit()
    ensures { (size : ℕ) → AcceptedChangesFit size }
{}
