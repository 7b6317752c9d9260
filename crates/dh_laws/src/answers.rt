//! What a question is about.

ghost use Rattle.dh_laws.specs.AskedAbout.{AnsweredByItsRows};

/// The rows that a question is about answer it as all books do, in keyed books.
pub fn answered_by_its_rows()
    ensures { AnsweredByItsRows }
{}
