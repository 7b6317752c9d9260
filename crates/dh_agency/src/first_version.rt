//! Files of the first version: the end of an open run, and the way to the second.

ghost use Rattle.std.specs.Prelude.{◌≡◌, false, IsTrue, MatchResult, Ok, Err, IfOk, IfErr};
ghost use Rattle.sqlite.specs.State.{HasCleanDisk};
ghost use Rattle.sqlite.specs.Held.{state};
ghost use Rattle.dh_types.specs.declared.version.Version.TheVariants.{First};
ghost use Rattle.dh_schema.specs.Store as store;
ghost use Rattle.dh_schema.specs.Store.{IsReadyWith, tables};
ghost use Rattle.dh_runs.specs.Taking.{CanBeTaken, HasVersion, IsResting, Sorts, Takes};
ghost use Rattle.dh_runs.specs.Migrated.{migrated_state};
ghost use Rattle.dh_runs.specs.Moved.{CanBeMigrated, IsMigrationProblem, IsNotMigrated, MovesOn, StaysAsItWas};
ghost use Rattle.dh_agency.specs.Agency.{IsClean, LeavesItsTables, machine, shown_by};
ghost use Rattle.dh_agency.specs.Taken.{Halts, TakesAsTheyAre, TakesForward};
ghost use Rattle.dh_agency.specs.Outcomes.{IsRecovered};

use crate::{Agency, NotOpened};
use dh_runs::{Problem, migrate_in, recover_in};
use dh_types::Version;
use sqlite::{Alter, Connection};
use std::alloc::Global;

/// Takes sound tables of the first version without an open run to the second version, in one transaction: all rows and balances stay,
/// each part gets a fee of 0, and no lease is ended early. There is no way back. Refusal 16 comes exactly where `meta` gives another
/// version than the first, then refusal 17 exactly where the tables are not sound, as [`attach`](crate::attach) tells them, and then
/// refusal 10 with the month where a run stands open. Fault 21 comes where memory runs out, and fault 22 where the store fails, or the
/// tables are not ours or not those of the version that `meta` gives. At a refusal the tables stay as they are; a crash as it returns
/// leaves those before or the migrated ones.
pub fn migrate<S: Alter>(
    alloc: Global,
    conn: Connection<S>,
) -> Result<Agency<S>, NotOpened<Problem, S>>
    requires { HasCleanDisk (state S.Store conn) → IsResting (state S.Store conn) }
    ensures migrated { IfOk result (λ a. (a.is_stopped ≡ false)
        × (IsClean S.Store a → machine S.Store a ≡ migrated_state (tables (state S.Store conn)))) }
    ensures left { IfOk result (λ a. IsClean S.Store a → LeavesItsTables S.Store a) }
    ensures takes { MatchResult result (λ a. Sorts S.Store First CanBeMigrated IsNotMigrated IsMigrationProblem conn a.conn (Ok a))
        (λ e. Sorts {X = Unit {0}} S.Store First CanBeMigrated IsNotMigrated IsMigrationProblem conn e.conn (Err e.cause)) }
    ensures made { IfOk result (λ a. MovesOn (state S.Store conn) (shown_by S.Store a)) }
    ensures crash { IfErr result (λ e. MovesOn (state S.Store conn) (state S.Store e.conn)) }
    ensures stays { IfErr result (λ e. HasCleanDisk (state S.Store e.conn) → IsTrue (state S.Store e.conn).is_open
        → StaysAsItWas (state S.Store conn) (state S.Store e.conn)) }
{
    let mut conn = conn;
    match migrate_in(alloc, &mut conn) {
        Ok(()) => Ok(Agency::over(conn)),
        Err(cause) => Err(NotOpened { cause, conn }),
    }
}

/// Takes tables of the first version and makes the run that they show as open to its end; they stay tables of the first version. The
/// refusals and faults are those of [`recover`](crate::recover), where the first version is the one that is wanted, and at a refusal
/// the tables stay as they are. At a fault, and after a crash as it returns, sound tables are sound with the same whole books, and the
/// open run is moved on; tables that are not sound, or not of the first version, stay as they are.
pub fn recover_1<S: Alter>(
    alloc: Global,
    conn: Connection<S>,
) -> Result<Connection<S>, NotOpened<Problem, S>>
    requires { HasCleanDisk (state S.Store conn) → IsResting (state S.Store conn) }
    ensures recovered { IfOk result (λ c. HasCleanDisk (state S.Store c) → IsReadyWith (state S.Store c) (IsRecovered (tables (state S.Store conn)))) }
    ensures first { IfOk result (λ c. HasCleanDisk (state S.Store c) → HasVersion First (state S.Store c)) }
    ensures left { IfOk result (λ c. HasCleanDisk (state S.Store c) → store.LeavesItsTables (state S.Store c)) }
    ensures takes { MatchResult result (λ c. Takes S.Store First conn c (Ok c)) (λ e. Takes {X = Unit {0}} S.Store First conn e.conn (Err e.cause)) }
    ensures made { IfOk result (λ c. TakesForward (state S.Store conn) (state S.Store c)) }
    ensures crash { IfErr result (λ e. TakesForward (state S.Store conn) (state S.Store e.conn)) }
    ensures not_taken { ¬ CanBeTaken First (state S.Store conn).now.trees
        → IfErr result (λ e. TakesAsTheyAre (state S.Store conn) (state S.Store e.conn)) }
    ensures halted { IfErr result (λ e. Halts (state S.Store conn) (state S.Store e.conn)) }
{
    let mut conn = conn;
    match recover_in(alloc, &mut conn, Version::First) {
        Ok(()) => Ok(conn),
        Err(cause) => Err(NotOpened { cause, conn }),
    }
}
