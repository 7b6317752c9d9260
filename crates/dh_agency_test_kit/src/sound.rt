//! Sound tables of either version.

ghost use Rattle.std.specs.Prelude.{OnOk};
ghost use Rattle.sqlite.specs.State.{HasCleanDisk};
ghost use Rattle.sqlite.specs.Held.{state};
ghost use Rattle.dh_model.specs.Rules.{MeetsRules};
ghost use Rattle.dh_model.specs.Runs.{batch_size};
ghost use Rattle.dh_schema.specs.Store.{IsReady};
ghost use Rattle.dh_runs.specs.Taking.{IsResting};

use dh_audit::audit;
use dh_books::Books;
use dh_runs::Problem;
use dh_schema::load;
use dh_types::Refusal;
use sqlite::{Alter, Connection};
use std::alloc::Global;

// Whether the books meet the rules of the audit.
fn check_books(alloc: Global, books: &Books) -> Result<(), Problem>
    ensures { OnOk result (MeetsRules books.now.books batch_size) }
{
    match audit(alloc, books)? {
        Ok(()) => Ok(()),
        Err(rule) => Err(Problem::Refused(Refusal::Damaged(rule))),
    }
}

/// The tables of either version as books, where they are sound.
pub fn sound_books<S: Alter>(alloc: Global, conn: &mut Connection<S>) -> Result<Books, Problem>
    requires { HasCleanDisk (state S.Store conn.old) → IsResting (state S.Store conn.old) }
    ensures { HasCleanDisk (state S.Store conn.new) → OnOk result (IsReady (state S.Store conn.new)) }
{
    let books = load(alloc, conn)?;
    check_books(alloc, &books)?;
    Ok(books)
}
