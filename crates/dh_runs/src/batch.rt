//! A batch in one transaction.

ghost use Rattle.std.specs.Prelude.{◌≡◌, IfOk};
ghost use Rattle.sqlite.specs.State.{HasCleanDisk};
ghost use Rattle.sqlite.specs.Held.{state};
ghost use Rattle.dh_laws.specs.Batches.{IsUnderWay, next_batch};
ghost use Rattle.dh_leases.specs.Plans.{IsPlanOf};
ghost use Rattle.dh_schema.specs.Steps.{Steps};
ghost use Rattle.dh_schema.specs.Store.{IsReady, tables};
ghost use Rattle.dh_runs.specs.Batches.{CanBePosted, posted_batch};

use crate::plan::plan_run;
use crate::rows::PostedRows;
use dh_leases::Plan;
use dh_schema::{StoreFault, commit};
use sqlite::{Alter, Connection};
use std::alloc::Global;

/// What posting a batch comes to.
#[derive(Clone, Copy, Debug, PartialEq, Eq)]
pub enum Batch {
    /// One more is done: so many of so many.
    Posted { done: u128, of: u128 },
    /// No batch of the run was left.
    NoneLeft,
}

// Posts the first batch of the plan, if it has one.
fn post_first<S: Alter>(
    alloc: Global,
    conn: &mut Connection<S>,
    plan: &Plan,
) -> Result<Batch, StoreFault>
    requires ready { HasCleanDisk (state S.Store conn.old) → IsReady (state S.Store conn.old) }
    requires plan { HasCleanDisk (state S.Store conn.old) → IsPlanOf plan.now (tables (state S.Store conn.old)) }
    requires postable { CanBePosted plan.now }
    ensures value { HasCleanDisk (state S.Store conn.new)
        → IfOk result (λ it. it ≡ posted_batch (tables (state S.Store conn.old)).books (tables (state S.Store conn.old)).open_run) }
    ensures steps { Steps next_batch result (state S.Store conn.old) (state S.Store conn.new) }
{
    let Some(rows) = plan.batches.first() else {
        return Ok(Batch::NoneLeft);
    };
    commit(alloc, conn, &PostedRows { rows })?;
    Ok(Batch::Posted {
        done: plan.done + 1,
        of: plan.done + plan.batches.len() as u128,
    })
}

/// Posts the next batch of the open run, in one transaction, where one is left; it has at most fifty charges.
pub fn post_batch<S: Alter>(alloc: Global, conn: &mut Connection<S>) -> Result<Batch, StoreFault>
    requires ready { HasCleanDisk (state S.Store conn.old) → IsReady (state S.Store conn.old) }
    requires run { HasCleanDisk (state S.Store conn.old) → IsUnderWay (tables (state S.Store conn.old)).open_run }
    ensures value { HasCleanDisk (state S.Store conn.new)
        → IfOk result (λ it. it ≡ posted_batch (tables (state S.Store conn.old)).books (tables (state S.Store conn.old)).open_run) }
    ensures steps { Steps next_batch result (state S.Store conn.old) (state S.Store conn.new) }
{
    match plan_run(alloc, conn)? {
        Some(plan) => post_first(alloc, conn, &plan),
        None => Err(StoreFault::unclean(conn)),
    }
}
