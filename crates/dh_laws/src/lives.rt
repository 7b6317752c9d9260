//! Laws of all lives. Each function does nothing, and its clause is the law. Read `lives` first.

ghost use Rattle.std.specs.Prelude.{ℕ};
ghost use Rattle.dh_laws.specs.EachLife.{EachLifeKeepsABeginning};
ghost use Rattle.dh_laws.specs.Lives.{AcknowledgedReceiptsStay, AcknowledgedRunsStay, AllLives, EmptyTablesAreShown, RecoveredBooksAreLawful};
ghost use Rattle.dh_laws.specs.Lives.{MonthsAreChargedOnce, OneLifeKeepsABeginning, SentAgainIsOnce};

/// Interrupted in any command, any number of times, also in recovery: once a recovery is finished the tables are those of
/// the machine after a list of commands that keeps the order of the calls, holds every command that was acknowledged, and
/// of the others only such as were interrupted, each once at most; a rent run is one command.
pub fn lives()
    ensures { (size : ℕ) → AllLives size }
{}

/// The books that an agency begins with are such tables.
pub fn empty_tables_are_shown()
    ensures { (size : ℕ) → EmptyTablesAreShown size }
{}

/// Within one life the list of commands is a beginning of the calls.
pub fn one_life_keeps_a_beginning()
    ensures { (size : ℕ) → OneLifeKeepsABeginning size }
{}

/// Life after life the commands that count are a beginning of its calls: all, or all but the last.
pub fn each_life_keeps_a_beginning()
    ensures { (size : ℕ) → EachLifeKeepsABeginning size }
{}

/// Once a recovery is finished the books are lawful.
pub fn recovered_books_are_lawful()
    ensures { (size : ℕ) → RecoveredBooksAreLawful size }
{}

/// A month is charged once or not at all, and never in part.
pub fn months_are_charged_once()
    ensures { (size : ℕ) → MonthsAreChargedOnce size }
{}

/// A receipt that was acknowledged is in the books for good.
pub fn acknowledged_receipts_stay()
    ensures { (size : ℕ) → AcknowledgedReceiptsStay size }
{}

/// A rent run or an opening that was acknowledged is in the books for good, and its month is charged exactly once.
pub fn acknowledged_runs_stay()
    ensures { (size : ℕ) → AcknowledgedRunsStay size }
{}

/// A receipt or a run that was accepted with no run open, and is sent again next, with its key: the books stay the same.
pub fn sent_again_is_once()
    ensures { (size : ℕ) → SentAgainIsOnce size }
{}
