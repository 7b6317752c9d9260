//! What cuts a piece of work.

use dh_agency::Problem;
use dh_schema::LoadFault;
use dh_types::{Fault, Refusal};
use std::alloc::AllocError;

/// What cut a piece of work over tables.
#[derive(Clone, Copy)]
pub(crate) enum Cause {
    /// Refusal 16 or 17: they are of another version, or a rule of the audit is broken.
    Refused(Refusal),
    /// Fault 21 or 22.
    Fault(Fault),
}

impl From<Problem> for Cause {
    ghost use Rattle.std.specs.Prelude.{◌≡◌};
    ghost use Rattle.dh_lives.specs.Causes.{cause_of};

    ghost from_gives = { λ problem cause. cause ≡ cause_of problem };

    fn from(problem: Problem) -> Cause {
        match problem {
            Problem::Refused(refusal) => Cause::Refused(refusal),
            Problem::Fault(fault) => Cause::Fault(fault.fault()),
        }
    }
}

impl From<LoadFault> for Cause {
    ghost use Rattle.std.specs.Prelude.{◌≡◌};
    ghost use Rattle.dh_runs.specs.Problems.{problem_of};
    ghost use Rattle.dh_lives.specs.Causes.{cause_of};

    ghost from_gives = { λ fault cause. cause ≡ cause_of (problem_of fault) };

    fn from(fault: LoadFault) -> Cause {
        Cause::from(Problem::from(fault))
    }
}

impl From<AllocError> for Cause {
    ghost use Rattle.std.specs.Prelude.{◌≡◌};
    ghost use Rattle.dh_types.specs.declared.reply.Fault.TheVariants.{Memory};
    ghost use Rattle.dh_lives.specs.declared.cause.Cause.TheVariants as cause;

    ghost from_gives = { λ _ it. it ≡ cause.Fault Memory };

    fn from(_error: AllocError) -> Cause {
        Cause::Fault(Fault::Memory)
    }
}
