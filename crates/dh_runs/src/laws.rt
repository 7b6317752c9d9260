//! What holds of all migrated books.

ghost use Rattle.dh_runs.specs.Migrated.{MigratedBooksAreInOrder, MigrationMovesNoBalance};

/// Migrated books meet the rules of the second version.
pub fn migrated_books_are_in_order()
    ensures { MigratedBooksAreInOrder }
{}

/// What is owed on each lease stays.
pub fn migration_moves_no_balance()
    ensures { MigrationMovesNoBalance }
{}
