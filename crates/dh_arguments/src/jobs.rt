//! What the words may ask for.

ghost use Rattle.std.specs.Prelude.{◌≡◌};
ghost use Rattle.dh_arguments.specs.declared.jobs.BadWords.TheVariants.{Memory};

use clap::Error;
use dh_types::{BatchCount, EntryMonth, Question, Refusal, RunOrder};
use std::alloc::AllocError;

/// What the program is to do.
#[derive(Clone, Copy)]
pub enum Job<'a> {
    /// Makes a file, whose books begin with this month.
    Init {
        file: &'a str,
        first: EntryMonth,
    },
    /// Answers lines, in memory where no file is named, from this month on.
    Batch {
        file: Option<&'a str>,
        first: EntryMonth,
    },
    /// Charges a month's rent, or opens its run and carries out so many batches.
    Run {
        file: &'a str,
        order: RunOrder,
        batches: Option<BatchCount>,
    },
    /// Brings the open run to its end.
    Recover {
        file: &'a str,
    },
    /// Takes a file of the first version to the second. There is no way back.
    Migrate {
        file: &'a str,
    },
    /// Asks a question.
    Report {
        file: &'a str,
        question: Question,
    },
    /// Answers HTTP requests at this port of 127.0.0.1, on so many connections. 0 is a port that the system picks.
    Serve {
        file: &'a str,
        port: u16,
        count: BatchCount,
    },
}

/// Why the words ask for no job.
#[derive(Drop)]
pub enum BadWords {
    /// `clap` refused the words, or they ask for help: its message and exit status.
    Refused(Error),
    /// The value of the option with this long name is not read.
    Value(&'static str),
    /// A field of the question is bad.
    Question(Refusal),
    /// Memory ran out.
    Memory,
}

impl From<AllocError> for BadWords {
    ghost from_gives = { λ _ bad. bad ≡ Memory };

    fn from(_: AllocError) -> BadWords {
        BadWords::Memory
    }
}
