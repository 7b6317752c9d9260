//! Why tables are not loaded.

use crate::fault::StoreFault;
use sqlite::Error;
use std::alloc::AllocError;

/// Why tables are not loaded.
#[derive(Clone, Copy, Debug, PartialEq, Eq)]
pub enum LoadFault {
    /// A column does not hold a value of its kind, or meta has not exactly one row: rule 0 of the audit.
    Damaged,
    /// The store could not answer.
    Fault(StoreFault),
}

impl From<Error> for LoadFault {
    ghost use Rattle.std.specs.Prelude.{◌≡◌};
    ghost use Rattle.dh_schema.specs.Faults.{fault_of};
    ghost use Rattle.dh_schema.specs.LoadFaults.{IsLoadFault};
    ghost use Rattle.dh_schema.specs.declared.load_fault.LoadFault.TheVariants as load;

    ghost from_gives = { λ e f. (f ≡ load.Fault (fault_of e)) × IsLoadFault f };

    fn from(error: Error) -> LoadFault {
        LoadFault::Fault(StoreFault::from(error))
    }
}

impl From<AllocError> for LoadFault {
    ghost use Rattle.std.specs.Prelude.{◌≡◌};
    ghost use Rattle.dh_types.specs.declared.reply.Fault.TheVariants.{Memory};
    ghost use Rattle.dh_schema.specs.declared.load_fault.LoadFault.TheVariants as load;

    ghost from_gives = { λ _ f. f ≡ load.Fault Memory };

    fn from(error: AllocError) -> LoadFault {
        LoadFault::Fault(error.into())
    }
}
