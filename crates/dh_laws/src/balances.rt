//! What the leases owe. Read `balances_move_as_told` first.

ghost use Rattle.std.specs.Prelude.{ℕ};
ghost use Rattle.dh_laws.specs.Balances.{BalancesMoveAsTold, ChargesAreDues, EndsKeepDues};

/// An accepted run raises a lease's balance by its due, an accepted rent receipt lowers it by its amount, and nothing else
/// changes one.
pub fn balances_move_as_told()
    ensures { (size : ℕ) → BalancesMoveAsTold size }
{}

/// What is charged in whole books is what fell due in the months that were run, and nothing else.
pub fn charges_are_dues()
    ensures { (size : ℕ) → ChargesAreDues size }
{}

/// An accepted end of a lease leaves what fell due in the months that were run, so what was charged is still what fell due.
pub fn ends_keep_dues()
    ensures { EndsKeepDues }
{}
