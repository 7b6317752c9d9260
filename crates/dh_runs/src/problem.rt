//! Why tables are not taken.

use dh_schema::{LoadFault, StoreFault};
use dh_types::Refusal;
use std::alloc::AllocError;

/// Why tables are not taken.
#[derive(Clone, Copy, Debug, PartialEq, Eq)]
pub enum Problem {
    /// Refusal 16 or 17: they are of another version, or a rule of the audit is broken. Of a migration also refusal 10: a run stands open.
    Refused(Refusal),
    /// Fault 21 or 22: memory ran out or the store failed.
    Fault(StoreFault),
}

impl From<StoreFault> for Problem {
    ghost use Rattle.std.specs.Prelude.{◌≡◌};
    ghost use Rattle.dh_schema.specs.Faults.{IsFirstFault};
    ghost use Rattle.dh_runs.specs.declared.problem.Problem.TheVariants as problem;

    ghost from_gives = { λ fault told. (told ≡ problem.Fault fault) × IsFirstFault fault };

    fn from(fault: StoreFault) -> Problem {
        Problem::Fault(fault)
    }
}

impl From<AllocError> for Problem {
    ghost use Rattle.std.specs.Prelude.{◌≡◌};
    ghost use Rattle.dh_types.specs.declared.reply.Fault.TheVariants.{Memory};
    ghost use Rattle.dh_runs.specs.declared.problem.Problem.TheVariants as problem;

    ghost from_gives = { λ _ told. told ≡ problem.Fault Memory };

    fn from(error: AllocError) -> Problem {
        Problem::Fault(StoreFault::from(error))
    }
}

impl From<LoadFault> for Problem {
    ghost use Rattle.std.specs.Prelude.{◌≡◌};
    ghost use Rattle.dh_runs.specs.Problems.{problem_of};

    ghost from_gives = { λ fault told. told ≡ problem_of fault };

    fn from(fault: LoadFault) -> Problem {
        match fault {
            LoadFault::Damaged => Problem::Refused(Refusal::Damaged(0)),
            LoadFault::Fault(fault) => Problem::Fault(fault),
        }
    }
}
