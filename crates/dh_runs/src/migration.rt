//! The migration, in one transaction.

ghost use Rattle.std.specs.Prelude.{◌≡◌, IsTrue, IfOk, OnOk, OnErr};
ghost use Rattle.std.specs.FinMap.{values};
ghost use Rattle.sqlite.specs.State.{HasCleanDisk};
ghost use Rattle.sqlite.specs.Held.{state};
ghost use Rattle.dh_types.specs.declared.version.Version.TheVariants.{First};
ghost use Rattle.dh_schema.specs.Store.{IsReadyWith, tables};
ghost use Rattle.dh_runs.specs.Taking.{IsResting, Sorts};
ghost use Rattle.dh_runs.specs.Migrated.{migrated_state};
ghost use Rattle.dh_runs.specs.Moved.{CanBeMigrated, IsMigrationProblem, IsNotMigrated, MovesOn, StaysAsItWas};

use crate::Problem;
use crate::checks::checked_books;
use crate::second_version::SecondVersion;
use dh_books::Books;
use dh_leases::open_row;
use dh_schema::commit;
use dh_types::{Part, Refusal, Version};
use sqlite::{Alter, Connection};
use std::alloc::{AllocError, Global};

// The parts that the books have.
fn listed_parts(alloc: Global, books: &Books) -> Result<Vec<Part>, AllocError>
    ensures { IfOk result (λ parts. parts.items ≡ values books.now.books.parts) }
{
    let mut parts = Vec::new(alloc);
    for part in books.parts() {
        parts.push(*part)?;
    }
    Ok(parts)
}

/// Takes sound tables of the first version without an open run to the second version, in one transaction: the rows stay, each part gets
/// a fee row of 0, and no lease is ended early. Refusals 16 and 17 come as [`check`] tells them of tables that should be of the first
/// version, and then refusal 10 with the month of an open run; they change nothing. Fault 21 or 22 comes where memory ran out or the
/// store failed, or the tables are not ours, or not those of the version that `meta` gives. However it returns, the tables are
/// the migrated ones or those before, and at a fault, while the store is open, those before.
pub fn migrate_in<S: Alter>(alloc: Global, conn: &mut Connection<S>) -> Result<(), Problem>
    requires { HasCleanDisk (state S.Store conn.old) → IsResting (state S.Store conn.old) }
    ensures migrated { HasCleanDisk (state S.Store conn.new)
        → OnOk result (IsReadyWith (state S.Store conn.new) (λ t. t ≡ migrated_state (tables (state S.Store conn.old)))) }
    ensures takes { Sorts S.Store First CanBeMigrated IsNotMigrated IsMigrationProblem conn.old conn.new result }
    ensures stays { HasCleanDisk (state S.Store conn.new) → IsTrue (state S.Store conn.new).is_open
        → OnErr result (StaysAsItWas (state S.Store conn.old) (state S.Store conn.new)) }
    ensures moves { MovesOn (state S.Store conn.old) (state S.Store conn.new) }
{
    let books = checked_books(alloc, conn, Version::First)?;
    if let Some(run) = open_row(&books) {
        return Err(Problem::Refused(Refusal::RunOpen(run.month.month())));
    }
    let parts = listed_parts(alloc, &books)?;
    commit(alloc, conn, &SecondVersion { parts: &parts })?;
    Ok(())
}
