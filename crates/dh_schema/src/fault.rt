//! Faults of the store.

ghost use Rattle.std.specs.Prelude.{◌≡◌, pos, true};
ghost use Rattle.sqlite.specs.State.{HasCleanDisk};
ghost use Rattle.sqlite.specs.Held.{state};
ghost use Rattle.dh_rows.specs.Cells.{version_number};
ghost use Rattle.dh_tables.specs.Calls.{HasOurTables};
ghost use Rattle.dh_schema.specs.Faults.{fault_of, IsFirstFault};
ghost use Rattle.dh_schema.specs.Store.{IsBlank};

use crate::file_version::FileVersion;
use dh_types::Fault;
use sqlite::{Alter, Connection, Error, ErrorCode};
use std::alloc::AllocError;
use std::marker::Model;

/// What an error of the store is told as: want of memory as that, and all else as a fault of the store.
pub fn fault_of(error: Error) -> Fault
    ensures value { result ≡ fault_of error }
    ensures first { IsFirstFault result }
{
    match error {
        Error::SqliteFailure(ErrorCode::OutOfMemory) => Fault::Memory,
        _ => Fault::Store,
    }
}

/// Why a call over the store gave no answer: fault 21 or 22. It is made of an error of the store, of a growth that was refused, of
/// tables that are not ours or of another version than `meta` gives, of a file that is occupied, or over a store that is not clean,
/// and of nothing else. When the store answers an error, no clause says.
#[derive(Clone, Copy, Debug, PartialEq, Eq)]
pub struct StoreFault {
    fault: Fault,
}

impl Model for StoreFault {
    ghost use Rattle.dh_types.specs.declared.reply.Fault.{Fault};
    ghost use Rattle.dh_schema.specs.Faults.{IsFirstFault};

    ghost Value = { Fault };

    ghost view = { λ f. f.fault };

    ghost invariant = { λ f. IsFirstFault f.fault };

    ghost inverse = { λ fault. record { fault = fault } };
}

impl StoreFault {
    /// The fault of a store that shows what a clean one can't.
    pub fn unclean<S: Alter>(_conn: &Connection<S>) -> StoreFault
        requires { ¬ HasCleanDisk (state S.Store _conn.now) }
        ensures value { result ≡ Fault.Store }
        ensures first { IsFirstFault result }
    {
        StoreFault {
            fault: Fault::Store,
        }
    }

    /// The fault of a file whose tables are not ours.
    pub(crate) fn foreign<S: Alter>(_conn: &Connection<S>) -> StoreFault
        requires { ¬ HasOurTables (state S.Store _conn.now) }
        ensures value { result ≡ Fault.Store }
        ensures first { IsFirstFault result }
    {
        StoreFault {
            fault: Fault::Store,
        }
    }

    /// The fault of a file in which there is an object already, or a transaction.
    pub(crate) fn occupied<S: Alter>(_conn: &Connection<S>) -> StoreFault
        requires { IsBlank (state S.Store _conn.now) → (state S.Store _conn.now).in_transaction ≡ true }
        ensures value { result ≡ Fault.Store }
        ensures first { IsFirstFault result }
    {
        StoreFault {
            fault: Fault::Store,
        }
    }

    /// The fault of a file whose tables are of another version than `meta` gives.
    pub(crate) fn of_other_version(_found: FileVersion) -> StoreFault
        requires { (_found.number ≡ pos (version_number _found.tables)) → ⊥ }
        ensures value { result ≡ Fault.Store }
        ensures first { IsFirstFault result }
    {
        StoreFault {
            fault: Fault::Store,
        }
    }

    /// The fault that the agency answers.
    pub fn fault(self) -> Fault
        ensures value { result ≡ self }
        ensures first { IsFirstFault result }
    {
        self.fault
    }
}

impl From<Error> for StoreFault {
    ghost use Rattle.std.specs.Prelude.{◌≡◌};
    ghost use Rattle.dh_schema.specs.Faults.{fault_of, IsFirstFault};

    ghost from_gives = { λ e f. (f ≡ fault_of e) × IsFirstFault f };

    fn from(error: Error) -> StoreFault {
        StoreFault {
            fault: fault_of(error),
        }
    }
}

impl From<AllocError> for StoreFault {
    ghost use Rattle.std.specs.Prelude.{◌≡◌};
    ghost use Rattle.dh_types.specs.declared.reply.Fault.TheVariants.{Memory};
    ghost use Rattle.dh_schema.specs.Faults.{IsFirstFault};

    ghost from_gives = { λ _ f. (f ≡ Memory) × IsFirstFault f };

    fn from(_error: AllocError) -> StoreFault {
        StoreFault {
            fault: Fault::Memory,
        }
    }
}
