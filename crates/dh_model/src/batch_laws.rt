//! Laws of rent runs and their batches: each function does nothing, and its clause is the law.

ghost use Rattle.std.specs.Prelude.{ℕ};
ghost use Rattle.dh_model.specs.BatchLaws.{BatchesOfBranchesAreAmongAll, EachDueHasItsBatch, LastBatchPostsAll, NoBatchIsTooLarge, OneNumberOfBatches};

/// No batch has more charges than the size.
pub fn no_batch_is_too_large()
    ensures { (size : ℕ) → NoBatchIsTooLarge size }
{}

/// Each due of a branch belongs to one of the branch's batches.
pub fn each_due_has_its_batch()
    ensures { (size : ℕ) → EachDueHasItsBatch size }
{}

/// The batches of a branch, and those of the branches before it, are among all batches.
pub fn batches_of_branches_are_among_all()
    ensures { (size : ℕ) → BatchesOfBranchesAreAmongAll size }
{}

/// After the last batch all dues of each branch are posted, and each branch has begun.
pub fn last_batch_posts_all()
    ensures { (size : ℕ) → LastBatchPostsAll size }
{}

/// Of a month's rent run the books show one number of batches.
pub fn one_number_of_batches()
    ensures { (size : ℕ) → OneNumberOfBatches size }
{}
