//! Recovery: the open run is made to its end.

ghost use Rattle.std.specs.Prelude.{◌≤◌, IsTrue, IfErr, OnOk, OnErr};
ghost use Rattle.sqlite.specs.State.{HasCleanDisk};
ghost use Rattle.sqlite.specs.Held.{state};
ghost use Rattle.sqlite_trees.specs.View.{doubt};
ghost use Rattle.dh_schema.specs.Faults.{IsFirstFault};
ghost use Rattle.dh_schema.specs.Store.{IsReady, IsReadyWith, Leaves, tables};
ghost use Rattle.dh_runs.specs.Taken.{Halts, TakesForward};
ghost use Rattle.dh_runs.specs.Taking.{CanBeTaken, HasVersion, IsResting, Takes, TakesAsTheyAre};
ghost use Rattle.dh_runs.specs.Outcomes.{IsRecovered, IsMidRecovery};

use crate::batches::{RunState, post_some};
use crate::checks::check;
use crate::problem::Problem;
use dh_schema::StoreFault;
use dh_types::Version;
use sqlite::{Alter, Connection};
use std::alloc::Global;

// Makes the open run to its end, where one is open.
fn finish<S: Alter>(alloc: Global, conn: &mut Connection<S>) -> Result<(), StoreFault>
    requires { HasCleanDisk (state S.Store conn.old) → IsReady (state S.Store conn.old) }
    ensures recovered { HasCleanDisk (state S.Store conn.new)
        → OnOk result (IsReadyWith (state S.Store conn.new) (IsRecovered (tables (state S.Store conn.old)))) }
    ensures crash { HasCleanDisk (state S.Store conn.new) → Leaves (state S.Store conn.new) (IsMidRecovery (tables (state S.Store conn.old))) }
    ensures halted { HasCleanDisk (state S.Store conn.new) → IsTrue (state S.Store conn.new).is_open
        → OnErr result (IsReadyWith (state S.Store conn.new) (IsMidRecovery (tables (state S.Store conn.old)))) }
    ensures cause { IfErr result IsFirstFault }
    ensures was_clean { doubt (state S.Store conn.old).is_clean ≤ doubt (state S.Store conn.new).is_clean }
{
    match post_some(alloc, conn, u128::MAX)? {
        RunState::NoRun | RunState::Posted(_) => Ok(()),
        RunState::Part(_) => unreachable!(),
    }
}

/// Takes the tables where they are sound and of the version that is wanted, and makes the open run to its end. The version stays.
/// Refusals 16 and 17 come as [`check`] tells them, and change nothing; fault 21 or 22 comes where memory ran out or the store failed,
/// or the tables are not ours, or not those of the version that `meta` gives. However it returns, sound tables stay sound with the
/// same whole books, and the open run is moved on. Tables that are not sound, or not of the version that is wanted, stay as they are, at a
/// fault too.
pub fn recover_in<S: Alter>(
    alloc: Global,
    conn: &mut Connection<S>,
    wanted: Version,
) -> Result<(), Problem>
    requires { HasCleanDisk (state S.Store conn.old) → IsResting (state S.Store conn.old) }
    ensures recovered { HasCleanDisk (state S.Store conn.new)
        → OnOk result (IsReadyWith (state S.Store conn.new) (IsRecovered (tables (state S.Store conn.old)))) }
    ensures version { HasCleanDisk (state S.Store conn.new) → OnOk result (HasVersion wanted (state S.Store conn.new)) }
    ensures takes { Takes S.Store wanted conn.old conn.new result }
    ensures forward { TakesForward (state S.Store conn.old) (state S.Store conn.new) }
    ensures halted { OnErr result (Halts (state S.Store conn.old) (state S.Store conn.new)) }
    ensures not_taken { ¬ CanBeTaken wanted (state S.Store conn.old).now.trees → TakesAsTheyAre (state S.Store conn.old) (state S.Store conn.new) }
{
    // That the trees list the schema is what each connection keeps true of itself.
    let _listed = conn.schema();
    check(alloc, conn, wanted)?;
    finish(alloc, conn)?;
    Ok(())
}
