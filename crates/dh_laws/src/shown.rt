//! The open run that books show. Read `one_run_is_shown` first.

ghost use Rattle.std.specs.Prelude.{ℕ};
ghost use Rattle.dh_laws.specs.Shown.{OneRunIsShown, OpenRowIsFound, RunShownIsReckoned, SoundBooksAreLawfulWhole, SoundBooksShow};

/// A run row that is not closed is at exactly one number of batches, in keyed books that meet the rules.
pub fn open_row_is_found()
    ensures { (size : ℕ) → OpenRowIsFound size }
{}

/// Keyed books that meet the rules show exactly one open run, or none; one exactly where a run row is open.
pub fn one_run_is_shown()
    ensures { (size : ℕ) → OneRunIsShown size }
{}

/// A run that keyed books show as open is the one that is reckoned from their part rows.
pub fn run_shown_is_reckoned()
    ensures { (size : ℕ) → RunShownIsReckoned size }
{}

/// Keyed books that meet the rules show the run that is reckoned from their part rows.
pub fn sound_books_show()
    ensures { (size : ℕ) → SoundBooksShow size }
{}

/// Keyed books that meet the rules have a lawful whole, whatever run they show.
pub fn sound_books_are_lawful_whole()
    ensures { (size : ℕ) → SoundBooksAreLawfulWhole size }
{}
