//! Making an agency.

ghost use Rattle.std.specs.Prelude.{◌≡◌, ◌≤◌, false, IsTrue, Err, IfOk, IfErr};
ghost use Rattle.sqlite.specs.State.{HasCleanDisk};
ghost use Rattle.sqlite.specs.Held.{state};
ghost use Rattle.dh_days.specs.declared.limits.TheConstants.{LAST_ENTRY_MONTH};
ghost use Rattle.dh_types.specs.declared.reply.Fault.TheVariants as fault;
ghost use Rattle.dh_model.specs.Books.{start};
ghost use Rattle.dh_schema.specs.Faults.{IsFirstFault};
ghost use Rattle.dh_schema.specs.Store.{IsBlank, Keeps, Commits};
ghost use Rattle.dh_agency.specs.Agency.{IsClean, LeavesItsTables, machine, shown_by};

use crate::Agency;
use dh_schema::install;
use dh_types::{Fault, Month};
use sqlite::{Alter, Connection};
use std::alloc::Global;

/// Why there is no agency, and the connection that was given.
pub struct NotOpened<C, S: Alter> {
    pub cause: C,
    pub conn: Connection<S>,
}

/// Makes the tables of the second version for empty books that begin with this month, in one transaction. Fault 21 comes where memory runs
/// out. Fault 22 comes where the store fails, or where the file has an object already and stays as it is. At another fault a crash leaves
/// the file as it was or with the new tables.
pub fn create<S: Alter>(
    alloc: Global,
    conn: Connection<S>,
    first: Month,
) -> Result<Agency<S>, NotOpened<Fault, S>>
    requires { first ≤ LAST_ENTRY_MONTH }
    ensures begun { IfOk result (λ a. (a.is_stopped ≡ false) × (IsClean S.Store a → machine S.Store a ≡ start first)) }
    ensures left { IfOk result (λ a. IsClean S.Store a → LeavesItsTables S.Store a) }
    ensures cause { IfErr result (λ e. IsFirstFault e.cause) }
    ensures occupied { ¬ IsBlank (state S.Store conn) → result ≡ Err (record { cause = fault.Store; conn = conn }) }
    ensures undone { IfErr result (λ e. HasCleanDisk (state S.Store e.conn) → IsTrue (state S.Store e.conn).is_open
        → (state S.Store e.conn).committed ≡ (state S.Store conn).committed) }
    ensures kept { IfErr result (λ e. HasCleanDisk (state S.Store e.conn) → Keeps (state S.Store conn) (state S.Store e.conn)) }
    ensures made { IfOk result (λ a. Commits (state S.Store conn) (shown_by S.Store a) (λ t. t ≡ start first)) }
    ensures crash { IfErr result (λ e. Commits (state S.Store conn) (state S.Store e.conn) (λ t. t ≡ start first)) }
{
    let mut conn = conn;
    match install(alloc, &mut conn, first) {
        Ok(()) => Ok(Agency::over(conn)),
        Err(fault) => Err(NotOpened {
            cause: fault.fault(),
            conn,
        }),
    }
}
