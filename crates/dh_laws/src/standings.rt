//! Where the machine stands tells the tables. Read `standing_determines_the_tables` first.

ghost use Rattle.std.specs.Prelude.{ℕ};
ghost use Rattle.dh_laws.specs.Standings.{NothingNewLeavesTheTables, StandingDeterminesTheTables, StandingMakesTheTables};

/// From the whole books and the open run the tables are made again, row for row: the run's month has the batches that are done and an
/// open row, and all else is as in the whole books.
pub fn standing_makes_the_tables()
    ensures { (size : ℕ) → StandingMakesTheTables size }
{}

/// So two tables in order with the same whole books and the same open run are the same.
pub fn standing_determines_the_tables()
    ensures { (size : ℕ) → StandingDeterminesTheTables size }
{}

/// A command that was refused, or that was carried out before, leaves the tables as they were, row for row; while a run is open too.
pub fn nothing_new_leaves_the_tables()
    ensures { (size : ℕ) → NothingNewLeavesTheTables size }
{}
