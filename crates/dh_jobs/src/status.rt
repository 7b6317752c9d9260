//! How the program ends.

ghost use Rattle.std.specs.Prelude.{◌≡◌, ◌↔◌, IsTrue};
ghost use Rattle.dh_jobs.specs.Statuses.{IsFailed, status_code};

use dh_lines::BatchFault;
use dh_types::{Fault, Output};

/// How the program ends. Where several apply, the first of `BadWords`, `Failed`, `FileRefused`, `SomeRefused`, `RunOpen` and
/// `Done` counts.
#[derive(Clone, Copy, Debug, PartialEq, Eq)]
pub enum Status {
    /// All was done, or help was asked for.
    Done,
    /// Some line, the run or the question was refused.
    SomeRefused,
    /// The words ask for nothing that there is; and what came of saying why.
    BadWords(Result<(), Output>),
    /// A fault, or the input or the output failed.
    Failed(Failure),
    /// Nothing was refused, and a rent run stands open.
    RunOpen,
    /// The tables of the file were refused.
    FileRefused,
}

/// Why a job failed, and what came of telling it.
#[derive(Clone, Copy, Debug, PartialEq, Eq)]
pub enum Failure {
    /// This fault came, and its line was written so.
    Fault(Fault, Result<(), Output>),
    /// The output failed in a text of the job.
    Output(Output),
    /// The lines ended early for this, which they tell.
    Lines(BatchFault),
    /// There is no listener, and the line that says so was written so.
    NoListener(Result<(), Output>),
    /// The agency stopped, as an answer 503 tells, or one that was lost.
    Stopped,
}

impl Status {
    /// The exit status of the process, 0 to 5.
    pub fn code(self) -> u8
        ensures { result ≡ status_code self }
    {
        match self {
            Status::Done => 0,
            Status::SomeRefused => 1,
            Status::BadWords(_) => 2,
            Status::Failed(_) => 3,
            Status::RunOpen => 4,
            Status::FileRefused => 5,
        }
    }

    /// Whether a job failed.
    pub(crate) fn is_failed(self) -> bool
        ensures { IsTrue result ↔ IsFailed self }
    {
        matches!(self, Status::Failed(_))
    }
}
