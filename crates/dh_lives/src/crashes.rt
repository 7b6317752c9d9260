//! From one life to the next, over stores that can be made to crash.

ghost use Rattle.std.specs.Prelude.{◌≡◌, ◌≤◌, false, IfSome, IfOk, OnOk, OnErr};
ghost use Rattle.sqlite.specs.Effect.{IsDatabase};
ghost use Rattle.sqlite.specs.State.{HasCleanDisk};
ghost use Rattle.sqlite.specs.Held.{state};
ghost use Rattle.sqlite_trees.specs.View.{doubt};
ghost use Rattle.dh_schema.specs.Store.{AreTables, tables};
ghost use Rattle.dh_schema.specs.Tables.{IsSound};
ghost use Rattle.dh_runs.specs.Taking.{IsResting};
ghost use Rattle.dh_runs.specs.Outcomes.{IsInterrupted, IsRecovered, IsAnsweredBy, IsMidRecovery};
ghost use Rattle.dh_agency.specs.Agency.{machine};
ghost use Rattle.dh_lives.specs.Calls.{Recovered, RecoveryInterrupted, StepInterrupted, Stepped};
ghost use Rattle.dh_lives.specs.Histories.{IsFoundAfter, IsOpenedAnew};

use crate::calls::{recover_tells, step_tells};
use dh_agency::{Agency, NotOpened, Problem};
use dh_types::{Command, Fault, Reply};
use sqlite::{Alter, Connection};
use sqlite_trees::store::Reopen;
use std::alloc::Global;

/// Crashes, and opens what the crash leaves. None where memory runs out or the store fails.
pub fn next_life<S: Alter + Reopen + Drop>(
    alloc: Global,
    conn: Connection<S>,
) -> Option<Connection<S>>
    ensures found { IfSome result (λ again. IsOpenedAnew S.Store conn again) }
    ensures lists { IfSome result (λ again. HasCleanDisk (state S.Store again) → IsDatabase (state S.Store again).now) }
    ensures resting { IfSome result (λ again. HasCleanDisk (state S.Store again) → IsResting (state S.Store again)) }
    ensures was_clean { IfSome result (λ again. doubt (state S.Store conn).is_clean ≤ doubt (state S.Store again).is_clean) }
{
    let mut store = conn.into_store();
    if store.crash_and_reopen().is_err() {
        return None;
    }
    match Connection::over(alloc, store) {
        Ok(again) => Some(again),
        Err(_) => None,
    }
}

/// Carries out the command, or is interrupted within it, then crashes and opens what the crash leaves. None where it can't be opened.
pub fn step_and_crash<S: Alter + Reopen + Drop>(
    alloc: Global,
    agency: Agency<S>,
    command: &Command,
) -> Option<(Result<Reply, Fault>, Connection<S>)>
    // What was answered is there.
    ensures said { IfSome result (λ r. HasCleanDisk (state S.Store r.1) → agency.is_stopped ≡ false
        → IfOk r.0 (λ reply. AreTables (IsAnsweredBy command.now reply (machine S.Store agency)) (state S.Store r.1).now.trees)) }
    // What was interrupted happened or not.
    ensures cut { IfSome result (λ r. HasCleanDisk (state S.Store r.1) → agency.is_stopped ≡ false
        → OnErr r.0 (AreTables (IsInterrupted command.now (machine S.Store agency)) (state S.Store r.1).now.trees)) }
    // Either way it is a call of a history.
    ensures answered { IfSome result (λ r. HasCleanDisk (state S.Store r.1) → agency.is_stopped ≡ false
        → IfOk r.0 (λ reply. IsFoundAfter S.Store agency.conn (Stepped command.now reply) r.1)) }
    ensures broken { IfSome result (λ r. HasCleanDisk (state S.Store r.1) → agency.is_stopped ≡ false
        → OnErr r.0 (IsFoundAfter S.Store agency.conn (StepInterrupted command.now) r.1)) }
{
    let mut agency = agency;
    let told = step_tells(alloc, &mut agency, command);
    let again = next_life(alloc, agency.into_store())?;
    Some((told, again))
}

/// Recovers the tables, or is interrupted within that, then crashes and opens what the crash leaves. None where it can't be opened.
pub fn recovery_and_crash<S: Alter + Reopen + Drop>(
    alloc: Global,
    conn: Connection<S>,
) -> Option<(Result<(), Problem>, Connection<S>)>
    requires { HasCleanDisk (state S.Store conn) → IsResting (state S.Store conn) }
    // No run is open.
    ensures recovered { IfSome result (λ r. HasCleanDisk (state S.Store r.1)
        → OnOk r.0 (AreTables (IsRecovered (tables (state S.Store conn))) (state S.Store r.1).now.trees)) }
    // The run is where it was or further.
    ensures interrupted { IfSome result (λ r. HasCleanDisk (state S.Store r.1) → IsSound (state S.Store conn).now.trees
        → OnErr r.0 (AreTables (IsMidRecovery (tables (state S.Store conn))) (state S.Store r.1).now.trees)) }
    // Either way it is a call of a history.
    ensures answered { IfSome result (λ r. HasCleanDisk (state S.Store r.1) → OnOk r.0 (IsFoundAfter S.Store conn Recovered r.1)) }
    ensures broken { IfSome result (λ r. HasCleanDisk (state S.Store r.1) → OnErr r.0 (IsFoundAfter S.Store conn RecoveryInterrupted r.1)) }
{
    match recover_tells(alloc, conn) {
        Ok(agency) => Some((Ok(()), next_life(alloc, agency.into_store())?)),
        Err(NotOpened { cause, conn }) => Some((Err(cause), next_life(alloc, conn)?)),
    }
}
