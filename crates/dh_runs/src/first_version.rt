//! The transactions of a run over tables of the first version. They leave no fee row; else they are those over the second.

ghost use Rattle.std.specs.Prelude.{◌≡◌, IfOk};
ghost use Rattle.sqlite.specs.State.{HasCleanDisk};
ghost use Rattle.sqlite.specs.Held.{state};
ghost use Rattle.dh_types.specs.declared.version.Version.TheVariants.{First};
ghost use Rattle.dh_laws.specs.Batches.{IsAtItsEnd, IsUnderWay, closed_state, next_batch, open_run_sum};
ghost use Rattle.dh_schema.specs.Steps.{Steps};
ghost use Rattle.dh_schema.specs.Store.{IsReady, tables};
ghost use Rattle.dh_runs.specs.Batches.{posted_batch};
ghost use Rattle.dh_runs.specs.Taking.{HasVersion};

use crate::batch::{Batch, post_batch};
use crate::run_end::close_run;
use dh_schema::StoreFault;
use dh_types::RunSum;
use sqlite::{Alter, Connection};
use std::alloc::Global;

/// [`post_batch`] over tables of the first version.
pub fn post_batch_1<S: Alter>(alloc: Global, conn: &mut Connection<S>) -> Result<Batch, StoreFault>
    requires ready { HasCleanDisk (state S.Store conn.old) → IsReady (state S.Store conn.old) }
    requires run { HasCleanDisk (state S.Store conn.old) → IsUnderWay (tables (state S.Store conn.old)).open_run }
    requires first { HasCleanDisk (state S.Store conn.old) → HasVersion First (state S.Store conn.old) }
    ensures value { HasCleanDisk (state S.Store conn.new)
        → IfOk result (λ it. it ≡ posted_batch (tables (state S.Store conn.old)).books (tables (state S.Store conn.old)).open_run) }
    ensures steps { Steps next_batch result (state S.Store conn.old) (state S.Store conn.new) }
{
    post_batch(alloc, conn)
}

/// [`close_run`] over tables of the first version.
pub fn close_run_1<S: Alter>(alloc: Global, conn: &mut Connection<S>) -> Result<RunSum, StoreFault>
    requires ready { HasCleanDisk (state S.Store conn.old) → IsReady (state S.Store conn.old) }
    requires end { HasCleanDisk (state S.Store conn.old) → IsAtItsEnd (tables (state S.Store conn.old)).books (tables (state S.Store conn.old)).open_run }
    requires first { HasCleanDisk (state S.Store conn.old) → HasVersion First (state S.Store conn.old) }
    ensures value { HasCleanDisk (state S.Store conn.new)
        → IfOk result (λ sum. sum ≡ open_run_sum (tables (state S.Store conn.old)).books (tables (state S.Store conn.old)).open_run) }
    ensures steps { Steps closed_state result (state S.Store conn.old) (state S.Store conn.new) }
{
    close_run(alloc, conn)
}
