//! How a batch ends.

use crate::records::Unread;
use crate::watched_reader::Input;
use dh_types::{Fault, Output};

/// How many records were answered, and how many of them by a refusal.
#[derive(Clone, Copy, Debug, PartialEq, Eq)]
pub struct Summary {
    pub records: u64,
    pub refused: u64,
}

/// Why a batch ended early.
#[derive(Clone, Copy, Debug, PartialEq, Eq)]
pub enum BatchFault {
    /// The agency answered this fault, or memory ran out for a text of the record.
    Agency(Fault),
    /// A record was not read, which is told as fault 21.
    Unread(Unread),
    /// The reader failed, or 2^64 - 1 records were answered.
    Input(Input),
    /// The writer failed.
    Output(Output),
}

/// The same, and what came of writing the fault's line.
#[derive(Drop)]
pub enum Halt {
    /// The fault, and whether its line was written whole.
    Fault(Fault, Result<(), Output>),
    /// The record was not read, and whether the line of fault 21 was written whole.
    Unread(Unread, Result<(), Output>),
    /// The reader failed, or 2^64 - 1 records were answered.
    Input(Input),
    /// The writer failed in an answer's line.
    Output(Output),
}

impl From<Output> for Halt {
    ghost use Rattle.std.specs.Prelude.{◌≡◌};
    ghost use Rattle.dh_lines.specs.declared.outcome.Halt.TheVariants as halt;

    ghost from_gives = { λ output e. e ≡ halt.Output output };

    fn from(output: Output) -> Halt {
        Halt::Output(output)
    }
}

impl From<Halt> for BatchFault {
    ghost use Rattle.std.specs.Prelude.{◌≡◌};
    ghost use Rattle.dh_lines.specs.Batch.{batch_fault};

    ghost from_gives = { λ it e. e ≡ batch_fault it };

    fn from(it: Halt) -> BatchFault {
        match it {
            Halt::Fault(fault, _) => BatchFault::Agency(fault),
            Halt::Unread(unread, _) => BatchFault::Unread(unread),
            Halt::Input(input) => BatchFault::Input(input),
            Halt::Output(output) => BatchFault::Output(output),
        }
    }
}
