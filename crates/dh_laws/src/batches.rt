//! Batches, one after the other, lead to the same whole books. Read `next_batch_keeps_the_whole` first.

ghost use Rattle.std.specs.Prelude.{ℕ};
ghost use Rattle.dh_laws.specs.NextBatch.{NextBatchAddsTheNext};
ghost use Rattle.dh_laws.specs.Posting.{ClosingMakesWhole, NextBatchIsSmall, NextBatchKeepsTheWhole, RunIsOpeningMadeWhole};

/// The next batch leaves books in order, and the whole of them as it was.
pub fn next_batch_keeps_the_whole()
    ensures { (size : ℕ) → NextBatchKeepsTheWhole size }
{}

/// A batch has no more charges than the size.
pub fn next_batch_is_small()
    ensures { (size : ℕ) → NextBatchIsSmall size }
{}

/// The next batch keeps what is charged, and adds the next charges, at most so many as the size: of the first branch by number
/// that isn't done, the first by lease.
pub fn next_batch_adds_the_next()
    ensures { (size : ℕ) → NextBatchAddsTheNext size }
{}

/// Where no batch is left, closing the run makes the books whole.
pub fn closing_makes_whole()
    ensures { (size : ℕ) → ClosingMakesWhole size }
{}

/// A run in one step is its opening made whole.
pub fn run_is_opening_made_whole()
    ensures { (size : ℕ) → RunIsOpeningMadeWhole size }
{}
