//! The opening of a run in one transaction.

ghost use Rattle.std.specs.Prelude.{◌≡◌, None};
ghost use Rattle.sqlite.specs.State.{HasCleanDisk};
ghost use Rattle.sqlite.specs.Held.{state};
ghost use Rattle.dh_schema.specs.Steps.{Steps};
ghost use Rattle.dh_schema.specs.Store.{IsReady, tables, with_change};
ghost use Rattle.dh_runs.specs.Outcomes.{IsOpeningOf};

use dh_laws::facts::accepted_changes_fit;
use dh_model::Change;
use dh_schema::{StoreFault, apply};
use sqlite::{Alter, Connection};
use std::alloc::Global;

/// Puts the row of the run, and moves the next month on, in one transaction: the change that the verdict on the opening gives. At a
/// fault the tables are these or those before, and while the store is open those before.
pub fn open_run<S: Alter>(
    alloc: Global,
    conn: &mut Connection<S>,
    opening: &Change,
) -> Result<(), StoreFault>
    requires ready { HasCleanDisk (state S.Store conn.old) → IsReady (state S.Store conn.old) }
    requires none { HasCleanDisk (state S.Store conn.old) → (tables (state S.Store conn.old)).open_run ≡ None }
    requires verdict { HasCleanDisk (state S.Store conn.old) → IsOpeningOf (tables (state S.Store conn.old)).books opening.now }
    ensures steps { Steps (with_change opening.now) result (state S.Store conn.old) (state S.Store conn.new) }
{
    accepted_changes_fit();
    apply(alloc, conn, opening)
}
