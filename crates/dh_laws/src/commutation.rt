//! What is free and an open run pass each other by. Read `free_changes_pass_the_run` first; the laws of each command follow.

ghost use Rattle.std.specs.Prelude.{ℕ};
ghost use Rattle.dh_types.specs.declared.command.Command.TheVariants as command;
ghost use Rattle.dh_laws.specs.Passing.{FreeAreJudgedAlike, FreeChangesPassTheRun, PassesTheRun};

/// What is served while a run is open has the verdict that it has over the books with the run made to its end.
pub fn free_are_judged_alike()
    ensures { (size : ℕ) → FreeAreJudgedAlike size }
{}

/// It doesn't matter whether the rest of the run comes before or after what is served meanwhile.
pub fn free_changes_pass_the_run()
    ensures { (size : ℕ) → FreeChangesPassTheRun size }
{}

/// A new member of staff may come before or after the rest of the run.
pub fn staff_passes_the_run()
    ensures { PassesTheRun command.Staff }
{}

/// A new owner may come before or after the rest of the run.
pub fn owner_passes_the_run()
    ensures { PassesTheRun command.Owner }
{}

/// A new property may come before or after the rest of the run, with its manager or without one.
pub fn property_passes_the_run()
    ensures { PassesTheRun command.Property }
{}

/// A property may get another manager, or none, before or after the rest of the run.
pub fn assign_passes_the_run()
    ensures { PassesTheRun command.Assign }
{}

/// A property's rent may change before or after the rest of the run: what is charged is the rent of the lease.
pub fn rent_passes_the_run()
    ensures { PassesTheRun command.Rent }
{}

/// A new client may come before or after the rest of the run.
pub fn client_passes_the_run()
    ensures { PassesTheRun command.Client }
{}

/// A client may be registered at a branch before or after the rest of the run.
pub fn register_passes_the_run()
    ensures { PassesTheRun command.Register }
{}

/// A client may view a property before or after the rest of the run.
pub fn viewing_passes_the_run()
    ensures { PassesTheRun command.Viewing }
{}

/// A viewing may get a comment before or after the rest of the run.
pub fn comment_passes_the_run()
    ensures { PassesTheRun command.Comment }
{}

/// A property may be inspected before or after the rest of the run.
pub fn inspection_passes_the_run()
    ensures { PassesTheRun command.Inspection }
{}
