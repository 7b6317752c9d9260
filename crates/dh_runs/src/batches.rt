//! Batches of the open run, one transaction each, and its end.

ghost use Rattle.std.specs.Prelude.{◌≡◌, ◌≤◌, None, IsTrue, IfOk, IfErr, OnOk, OnErr};
ghost use Rattle.sqlite.specs.State.{HasCleanDisk};
ghost use Rattle.sqlite.specs.Held.{state};
ghost use Rattle.sqlite_trees.specs.View.{doubt};
ghost use Rattle.dh_types.specs.declared.command.Command.TheVariants as command;
ghost use Rattle.dh_types.specs.declared.reply.Reply.TheVariants as reply;
ghost use Rattle.dh_model.specs.declared.rows.Verdict.TheVariants as verdict;
ghost use Rattle.dh_model.specs.Verdicts.{run_verdict};
ghost use Rattle.dh_laws.specs.Batches.{IsPostedInPart};
ghost use Rattle.dh_leases.specs.Plans.{IsPlanOf};
ghost use Rattle.dh_schema.specs.Faults.{IsFirstFault};
ghost use Rattle.dh_schema.specs.Store.{IsReady, IsReadyWith, Leaves, tables};
ghost use Rattle.dh_schema.specs.Months.{IsReadyOf};
ghost use Rattle.dh_runs.specs.Batches.{CanBePosted};
ghost use Rattle.dh_runs.specs.Outcomes.{IsAtEnd, IsInterrupted, IsAnsweredBy, LeavesOneBatch, LeavesOneStep, reply_of};

use crate::plan::{plan_open, plan_run};
use crate::rows::PostedRows;
use crate::run_end::close_month;
use crate::run_start::open_run;
use dh_leases::Plan;
use dh_model::{Change, OpenRun};
use dh_schema::{StoreFault, commit};
use dh_types::{Progress, RunOrder, RunSum, Version};
use sqlite::{Alter, Connection};
use std::alloc::Global;

/// How far the open run is, where batches were to be posted.
#[derive(Clone, Copy, Debug, PartialEq, Eq)]
pub enum RunState {
    /// No run was open.
    NoRun,
    /// Batches are left.
    Part(Progress),
    /// None was left, and the run is closed.
    Posted(RunSum),
}

// Carries out at most so many batches of the plan, and closes the run where none is left.
fn post_planned<S: Alter>(
    alloc: Global,
    conn: &mut Connection<S>,
    plan: &Plan,
    most: u128,
) -> Result<RunState, StoreFault>
    requires ready { HasCleanDisk (state S.Store conn.old) → IsReady (state S.Store conn.old) }
    requires planned { HasCleanDisk (state S.Store conn.old) → IsPlanOf plan.now (tables (state S.Store conn.old)) }
    requires postable { CanBePosted plan.now }
    ensures ready { HasCleanDisk (state S.Store conn.new) → OnOk result (IsReady (state S.Store conn.new)) }
    ensures said { HasCleanDisk (state S.Store conn.new)
        → IfOk result (λ it. IsAnsweredBy (command.Post most) (reply_of it) (tables (state S.Store conn.old)) (tables (state S.Store conn.new))) }
    ensures end { most ≡ u128.MAX → IfOk result IsAtEnd }
    ensures crash { HasCleanDisk (state S.Store conn.new) → Leaves (state S.Store conn.new) (IsPostedInPart most (tables (state S.Store conn.old))) }
    ensures single { HasCleanDisk (state S.Store conn.new) → OnErr result (LeavesOneBatch most (tables (state S.Store conn.old)) (state S.Store conn.new)) }
    ensures halted { HasCleanDisk (state S.Store conn.new) → IsTrue (state S.Store conn.new).is_open
        → OnErr result (IsReadyWith (state S.Store conn.new) (IsPostedInPart most (tables (state S.Store conn.old)))) }
    ensures cause { IfErr result IsFirstFault }
    ensures was_clean { doubt (state S.Store conn.old).is_clean ≤ doubt (state S.Store conn.new).is_clean }
{
    let left = plan.batches.len();
    let count = most.min(left as u128) as usize;
    for rows in &plan.batches[..count] {
        commit(alloc, conn, &PostedRows { rows })?;
    }
    if count < left {
        return Ok(RunState::Part(Progress {
            month: plan.month,
            done: plan.done + count as u128,
            of: plan.done + left as u128,
        }));
    }
    Ok(RunState::Posted(close_month(alloc, conn, plan.month)?))
}

/// Carries out at most so many batches of the open run, each in a transaction of its own, and closes it where none is left. The
/// batches are counted out once, before the first. Fault 21 or 22 comes where memory ran out or the store failed. However it
/// returns, the whole books are the same, and the open run is moved on by so many batches at most. A crash after a fault leaves
/// the tables of one batch or of the next, or those of the end where no batch was left.
pub fn post_some<S: Alter>(
    alloc: Global,
    conn: &mut Connection<S>,
    most: u128,
) -> Result<RunState, StoreFault>
    requires { HasCleanDisk (state S.Store conn.old) → IsReady (state S.Store conn.old) }
    ensures ready { HasCleanDisk (state S.Store conn.new) → OnOk result (IsReady (state S.Store conn.new)) }
    ensures said { HasCleanDisk (state S.Store conn.new)
        → IfOk result (λ it. IsAnsweredBy (command.Post most) (reply_of it) (tables (state S.Store conn.old)) (tables (state S.Store conn.new))) }
    ensures end { most ≡ u128.MAX → IfOk result IsAtEnd }
    ensures crash { HasCleanDisk (state S.Store conn.new) → Leaves (state S.Store conn.new) (IsPostedInPart most (tables (state S.Store conn.old))) }
    ensures single { HasCleanDisk (state S.Store conn.new) → OnErr result (LeavesOneBatch most (tables (state S.Store conn.old)) (state S.Store conn.new)) }
    ensures halted { HasCleanDisk (state S.Store conn.new) → IsTrue (state S.Store conn.new).is_open
        → OnErr result (IsReadyWith (state S.Store conn.new) (IsPostedInPart most (tables (state S.Store conn.old)))) }
    ensures cause { IfErr result IsFirstFault }
    ensures was_clean { doubt (state S.Store conn.old).is_clean ≤ doubt (state S.Store conn.new).is_clean }
{
    match plan_run(alloc, conn)? {
        Some(plan) => post_planned(alloc, conn, &plan, most),
        None => Ok(RunState::NoRun),
    }
}

/// Carries out a `run` over tables of this version that is accepted: the opening that the verdict gives, all batches, and the end, whose
/// count and total it answers. Fault 21 or 22 comes where memory ran out or the store failed. However it returns, the run was not
/// opened, or it stands at one of its batches, or is closed.
pub fn run_all<S: Alter>(
    alloc: Global,
    conn: &mut Connection<S>,
    version: Version,
    order: &RunOrder,
    opening: &Change,
) -> Result<RunSum, StoreFault>
    requires ready { HasCleanDisk (state S.Store conn.old) → IsReadyOf version (state S.Store conn.old) }
    requires none { HasCleanDisk (state S.Store conn.old) → (tables (state S.Store conn.old)).open_run ≡ None }
    requires verdict { HasCleanDisk (state S.Store conn.old)
        → run_verdict (tables (state S.Store conn.old)).books order.now ≡ verdict.Change opening.now }
    ensures ready { HasCleanDisk (state S.Store conn.new) → OnOk result (IsReady (state S.Store conn.new)) }
    ensures said { HasCleanDisk (state S.Store conn.new)
        → IfOk result (λ sum. IsAnsweredBy (command.Run order.now) (reply.Posted sum) (tables (state S.Store conn.old)) (tables (state S.Store conn.new))) }
    ensures crash { HasCleanDisk (state S.Store conn.new)
        → Leaves (state S.Store conn.new) (IsInterrupted (command.Run order.now) (tables (state S.Store conn.old))) }
    ensures single { HasCleanDisk (state S.Store conn.new)
        → OnErr result (LeavesOneStep order.now (tables (state S.Store conn.old)) (state S.Store conn.new)) }
    ensures halted { HasCleanDisk (state S.Store conn.new) → IsTrue (state S.Store conn.new).is_open
        → OnErr result (IsReadyWith (state S.Store conn.new) (IsInterrupted (command.Run order.now) (tables (state S.Store conn.old)))) }
    ensures cause { IfErr result IsFirstFault }
    ensures was_clean { doubt (state S.Store conn.old).is_clean ≤ doubt (state S.Store conn.new).is_clean }
{
    open_run(alloc, conn, opening)?;
    let run = OpenRun {
        month: order.month,
        done: 0,
    };
    let plan = plan_open(alloc, conn, version, run)?;
    match post_planned(alloc, conn, &plan, u128::MAX)? {
        RunState::Posted(sum) => Ok(sum),
        RunState::NoRun => Err(StoreFault::unclean(conn)),
        RunState::Part(_) => unreachable!(),
    }
}
