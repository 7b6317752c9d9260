//! Batches of an open run, posted without an agency.

ghost use Rattle.sqlite.specs.State.{HasCleanDisk};
ghost use Rattle.sqlite.specs.Held.{state};
ghost use Rattle.dh_leases.specs.Plans.{IsPlanOf};
ghost use Rattle.dh_schema.specs.Store.{IsReady, tables};
ghost use Rattle.dh_runs.specs.Taking.{HasVersion, IsResting};

use crate::lives::problem_text;
use dh_leases::Plan;
use dh_runs::{Batch, Problem, check, plan_run, post_batch, post_batch_1};
use dh_types::Version;
use sqlite::{Alter, Connection};
use std::alloc::{AllocError, Global};

// Posts the next batch of the open run that the plan is of, over tables of this version.
fn post_planned<S: Alter>(
    alloc: Global,
    conn: &mut Connection<S>,
    version: Version,
    plan: &Plan,
) -> Result<Batch, Problem>
    requires ready { HasCleanDisk (state S.Store conn.old) → IsReady (state S.Store conn.old) }
    requires version { HasCleanDisk (state S.Store conn.old) → HasVersion version (state S.Store conn.old) }
    requires planned { HasCleanDisk (state S.Store conn.old) → IsPlanOf plan.now (tables (state S.Store conn.old)) }
{
    match version {
        Version::First => Ok(post_batch_1(alloc, conn)?),
        Version::Second => Ok(post_batch(alloc, conn)?),
    }
}

// Posts the next batch, where a run is open.
fn post_if_open<S: Alter>(
    alloc: Global,
    conn: &mut Connection<S>,
    version: Version,
) -> Result<Option<Batch>, Problem>
    requires ready { HasCleanDisk (state S.Store conn.old) → IsReady (state S.Store conn.old) }
    requires version { HasCleanDisk (state S.Store conn.old) → HasVersion version (state S.Store conn.old) }
{
    match plan_run(alloc, conn)? {
        Some(plan) => Ok(Some(post_planned(alloc, conn, version, &plan)?)),
        None => Ok(None),
    }
}

fn posted<S: Alter>(
    alloc: Global,
    conn: &mut Connection<S>,
    version: Version,
) -> Result<Option<Batch>, Problem>
    requires { HasCleanDisk (state S.Store conn.old) → IsResting (state S.Store conn.old) }
{
    check(alloc, conn, version)?;
    post_if_open(alloc, conn, version)
}

/// What the next batch of the open run comes to, over tables of this version that were just opened: no agency posts it, and none closes
/// the run behind it.
pub fn batch_text<S: Alter>(
    alloc: Global,
    conn: &mut Connection<S>,
    version: Version,
) -> Result<String, AllocError>
    requires { HasCleanDisk (state S.Store conn.old) → IsResting (state S.Store conn.old) }
{
    match posted(alloc, conn, version) {
        Ok(Some(Batch::Posted { done, of })) => format!(in alloc; "batch {done} of {of}"),
        Ok(Some(Batch::NoneLeft)) => "none left".to_string(alloc),
        Ok(None) => "no run".to_string(alloc),
        Err(problem) => problem_text(alloc, problem),
    }
}
