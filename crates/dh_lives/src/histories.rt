//! Laws of all histories of calls. Each function does nothing but name the laws that it follows from, and its clause is the
//! law. Read `tables_are_the_machines` first.

ghost use Rattle.dh_lives.specs.HistoryLaws.{AcknowledgedReceiptsStay, AcknowledgedRunsStay, EachLifeKeepsABeginning, FromTheBeginning};
ghost use Rattle.dh_lives.specs.HistoryLaws.{HistoriesAreEvents, MonthsAreChargedOnce, NoneIsRefused, RecoveredBooksAreLawful, TablesAreTheMachines};
ghost use Rattle.dh_lives.specs.HistoryLaws.{TablesStayWhereNothingIsNew};
ghost use Rattle.dh_lives.specs.Migrations.{AnsweredAttemptsMigrate, DaysAreMigrated, FilesAreMigratedLater, RecoveredFilesAreMigrated};
ghost use Rattle.dh_lives.specs.Migrations.{LivesGoOnOverMigrations, MachinesOverMigrations, MigrationsMoveOnce, StepsStandOverMigrations};

use dh_laws::{lives, standings};
use sqlite::Alter;

/// The calls on an agency's tables, answered or interrupted, on one connection or on files opened anew after a stop, are events of which
/// the law of all lives speaks; and the tables that are found after each are sound.
pub fn histories_are_events<S: Alter>()
    ensures { HistoriesAreEvents S.Store }
{}

/// Tables that the calls of a history left are not refused where the version of its first tables is wanted: neither 16 nor 17 comes.
pub fn none_is_refused<S: Alter>()
    ensures { NoneIsRefused S.Store }
{}

/// A refusal, a reply that the command was carried out before and a question leave the tables as they were, row for row; while a run is
/// open too.
pub fn tables_stay_where_nothing_is_new<S: Alter>()
    ensures { TablesStayWhereNothingIsNew S.Store }
{
    standings::nothing_new_leaves_the_tables();
}

/// Whichever of these calls were made, answered or interrupted (no migration is among them): once a recovery is finished, the
/// tables are the machine's after a list of commands that keeps the order of the calls, holds every one that was answered, and of the
/// others only such as were interrupted, each once at most.
pub fn tables_are_the_machines<S: Alter>()
    ensures { TablesAreTheMachines S.Store }
{
    lives::lives();
}

/// The same from the tables that `create` makes: the machine begins with empty books.
pub fn from_the_beginning<S: Alter>()
    ensures { FromTheBeginning S.Store }
{
    lives::lives();
}

/// Life after life the commands that count are a beginning of its calls: all, or all but the last.
pub fn each_life_keeps_a_beginning<S: Alter>()
    ensures { EachLifeKeepsABeginning S.Store }
{
    lives::lives();
    lives::each_life_keeps_a_beginning();
}

/// Once a recovery is finished the books are lawful.
pub fn recovered_books_are_lawful<S: Alter>()
    ensures { RecoveredBooksAreLawful S.Store }
{
    lives::recovered_books_are_lawful();
}

/// A month is charged once or not at all, and never in part.
pub fn months_are_charged_once<S: Alter>()
    ensures { MonthsAreChargedOnce S.Store }
{
    lives::months_are_charged_once();
}

/// A receipt that was acknowledged is there for good.
pub fn acknowledged_receipts_stay<S: Alter>()
    ensures { AcknowledgedReceiptsStay S.Store }
{
    lives::acknowledged_receipts_stay();
}

/// A rent run or an opening that was acknowledged is there for good, and its month is charged exactly once.
pub fn acknowledged_runs_stay<S: Alter>()
    ensures { AcknowledgedRunsStay S.Store }
{
    lives::acknowledged_runs_stay();
}

/// However often a migration was begun and cut, the tables are sound, and are those before or the migrated ones.
pub fn migrations_move_once<S: Alter>()
    ensures { MigrationsMoveOnce S.Store }
{}

/// Lives of a file of the first version, its migration, cut any number of times, and lives of the second version: the tables are those
/// of the machine that was told the commands of the one, was migrated, and was told those of the other.
pub fn lives_go_on_over_migrations<S: Alter>()
    ensures { LivesGoOnOverMigrations S.Store }
{
    lives::lives();
}

/// Calls and attempts to migrate in any order, each answered, refused or interrupted: the machine stands at the tables that are found, that was told
/// commands of the calls before the attempt that moved the tables, was migrated, and was told commands of those behind it; or no attempt did.
pub fn steps_stand_over_migrations<S: Alter>()
    ensures { StepsStandOverMigrations S.Store }
{}

/// The same where the last call is a recovery: the tables are the machine's, row for row.
pub fn machines_over_migrations<S: Alter>()
    ensures { MachinesOverMigrations S.Store }
{}

/// An attempt to migrate that was answered, whatever was called and tried before it: a day's calls and no more, or an attempt that was refused and
/// a recovery, or an attempt that was interrupted and another day's calls.
pub fn answered_attempts_migrate<S: Alter>()
    ensures any { AnsweredAttemptsMigrate S.Store }
    ensures day { DaysAreMigrated S.Store }
    ensures recovered { RecoveredFilesAreMigrated S.Store }
    ensures later { FilesAreMigratedLater S.Store }
{}
