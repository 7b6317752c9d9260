//! What every change keeps. Read `changes_keep_order` first.

ghost use Rattle.std.specs.Prelude.{ℕ};
ghost use Rattle.dh_laws.specs.Keeping.{ChangesKeepOrder, EmptyBooksAreInOrder, StepsKeepTheLaw, TheVersionStays, WholeIsLawful};

/// The rows of an accepted command leave books in order, with the open run that the command leaves: none of another
/// month, and after an opening one with no batch done.
pub fn changes_keep_order()
    ensures { (size : ℕ) → ChangesKeepOrder size }
{}

/// Books in order are lawful once their open run is made to its end.
pub fn whole_is_lawful()
    ensures { (size : ℕ) → WholeIsLawful size }
{}

/// Over whole books each step of the machine leaves them lawful.
pub fn steps_keep_the_law()
    ensures { (size : ℕ) → StepsKeepTheLaw size }
{}

/// Books without a row are in order.
pub fn empty_books_are_in_order()
    ensures { (size : ℕ) → EmptyBooksAreInOrder size }
{}

/// Nothing that can happen to the tables makes them tables of another version: no command, no stop within one, no recovery.
pub fn the_version_stays()
    ensures { (size : ℕ) → TheVersionStays size }
{}
