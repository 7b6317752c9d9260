//! Laws of the machine: each function does nothing, and its clause is the law.

ghost use Rattle.std.specs.Prelude.{ℕ};
ghost use Rattle.dh_model.specs.MachineLaws.{FreeKeepTheRun, FrozenAreRefused, HalfRunsAreNotShown, PostsAddUp, RefusalsChangeNothing, RunIsOpeningAndBatches};

/// While a run is open, what is frozen is refused and changes nothing.
pub fn frozen_are_refused()
    ensures { (size : ℕ) → FrozenAreRefused size }
{}

/// A refusal changes nothing.
pub fn refusals_change_nothing()
    ensures { (size : ℕ) → RefusalsChangeNothing size }
{}

/// What isn't frozen leaves the open run where it is, unless it posts batches.
pub fn free_keep_the_run()
    ensures { (size : ℕ) → FreeKeepTheRun size }
{}

/// A run in one step is its opening and then all its batches.
pub fn run_is_opening_and_batches()
    ensures { (size : ℕ) → RunIsOpeningAndBatches size }
{}

/// Batches that are posted in two parts are posted in one.
pub fn posts_add_up()
    ensures { (size : ℕ) → PostsAddUp size }
{}

/// While a run is open, the questions that would show it half made are refused.
pub fn half_runs_are_not_shown()
    ensures { HalfRunsAreNotShown }
{}
