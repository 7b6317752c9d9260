//! Laws of tables.

ghost use Rattle.dh_schema.specs.TableLaws.{BooksAreKeyed, FirstBreaksNoLaterRule, OrderHasValues, SoundTablesShowTheirRun};

/// The records of any tables stand under their keys.
pub fn books_are_keyed()
    ensures { BooksAreKeyed }
{}

/// Tables in order hold values of their kinds.
pub fn order_has_values()
    ensures { OrderHasValues }
{}

/// The open run that sound tables give is the one that they show.
pub fn sound_tables_show_their_run()
    ensures { SoundTablesShowTheirRun }
{}

/// Tables of the first version break no rule of what came with the second.
pub fn first_breaks_no_later_rule()
    ensures { FirstBreaksNoLaterRule }
{}
