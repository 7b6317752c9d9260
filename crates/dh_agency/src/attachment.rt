//! Taking the tables of the second version that there are.

ghost use Rattle.std.specs.Prelude.{◌≡◌, false, MatchResult, Ok, Err, IfOk, IfErr};
ghost use Rattle.sqlite.specs.State.{HasCleanDisk};
ghost use Rattle.sqlite.specs.Held.{state};
ghost use Rattle.dh_types.specs.declared.version.Version.TheVariants.{Second};
ghost use Rattle.dh_schema.specs.Store.{tables};
ghost use Rattle.dh_runs.specs.Taking.{CanBeTaken, IsResting, Takes};
ghost use Rattle.dh_agency.specs.Agency.{IsClean, LeavesItsTables, machine, shown_by};
ghost use Rattle.dh_agency.specs.Taken.{Halts, TakesAsTheyAre, TakesForward};
ghost use Rattle.dh_agency.specs.Outcomes.{IsRecovered};

use crate::{Agency, NotOpened};
use dh_runs::{Problem, check, recover_in};
use dh_types::Version;
use sqlite::{Alter, Connection};
use std::alloc::Global;

/// Takes the tables as they are, with the run that they show as open, and changes nothing. Refusal 16 comes exactly where `meta`
/// gives another version than the second, and refusal 17 exactly where the tables are not sound, with 0 where a column does not hold a
/// value of its kind or `meta` gives no version, or the least rule of the audit that is broken. Fault 21 comes where memory runs out. Fault
/// 22 comes where the store fails, where the tables are not ours, which are then not touched, and where `meta` gives the second version
/// and the tables are those of the first.
pub fn attach<S: Alter>(
    alloc: Global,
    conn: Connection<S>,
) -> Result<Agency<S>, NotOpened<Problem, S>>
    requires { HasCleanDisk (state S.Store conn) → IsResting (state S.Store conn) }
    ensures attached { IfOk result (λ a. (a.is_stopped ≡ false) × (IsClean S.Store a → machine S.Store a ≡ tables (state S.Store conn))) }
    ensures left { IfOk result (λ a. IsClean S.Store a → LeavesItsTables S.Store a) }
    ensures takes { MatchResult result (λ a. Takes S.Store Second conn a.conn (Ok a)) (λ e. Takes {X = Unit {0}} S.Store Second conn e.conn (Err e.cause)) }
    ensures kept { IfOk result (λ a. TakesAsTheyAre (state S.Store conn) (shown_by S.Store a)) }
    ensures crash { IfErr result (λ e. TakesAsTheyAre (state S.Store conn) (state S.Store e.conn)) }
{
    let mut conn = conn;
    match check(alloc, &mut conn, Version::Second) {
        Ok(()) => Ok(Agency::over(conn)),
        Err(cause) => Err(NotOpened { cause, conn }),
    }
}

/// Takes the tables and makes the run that they show as open to its end. The refusals and faults are those of [`attach`], and at a
/// refusal the tables stay as they are. At a fault, and after a crash as it returns, sound tables are sound with the same whole books,
/// and the open run is moved on; tables that are not sound, or not of the second version, stay as they are.
pub fn recover<S: Alter>(
    alloc: Global,
    conn: Connection<S>,
) -> Result<Agency<S>, NotOpened<Problem, S>>
    requires { HasCleanDisk (state S.Store conn) → IsResting (state S.Store conn) }
    ensures recovered { IfOk result (λ a. (a.is_stopped ≡ false) × (IsClean S.Store a → IsRecovered (tables (state S.Store conn)) (machine S.Store a))) }
    ensures left { IfOk result (λ a. IsClean S.Store a → LeavesItsTables S.Store a) }
    ensures takes { MatchResult result (λ a. Takes S.Store Second conn a.conn (Ok a)) (λ e. Takes {X = Unit {0}} S.Store Second conn e.conn (Err e.cause)) }
    ensures made { IfOk result (λ a. TakesForward (state S.Store conn) (shown_by S.Store a)) }
    ensures crash { IfErr result (λ e. TakesForward (state S.Store conn) (state S.Store e.conn)) }
    ensures not_taken { ¬ CanBeTaken Second (state S.Store conn).now.trees
        → IfErr result (λ e. TakesAsTheyAre (state S.Store conn) (state S.Store e.conn)) }
    ensures halted { IfErr result (λ e. Halts (state S.Store conn) (state S.Store e.conn)) }
{
    let mut conn = conn;
    match recover_in(alloc, &mut conn, Version::Second) {
        Ok(()) => Ok(Agency::over(conn)),
        Err(cause) => Err(NotOpened { cause, conn }),
    }
}
