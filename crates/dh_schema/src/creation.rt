//! Making the tables of a file.

ghost use Rattle.std.specs.Prelude.{◌≡◌, ◌≤◌, IsTrue, Err, IfErr, OnOk, OnErr};
ghost use Rattle.sqlite.specs.State.{HasCleanDisk};
ghost use Rattle.sqlite.specs.Held.{state};
ghost use Rattle.dh_days.specs.declared.limits.TheConstants.{LAST_ENTRY_MONTH};
ghost use Rattle.dh_types.specs.declared.reply.Fault.TheVariants as fault;
ghost use Rattle.dh_model.specs.Books.{start};
ghost use Rattle.dh_schema.specs.Faults.{IsFirstFault};
ghost use Rattle.dh_schema.specs.Store.{IsReady, IsBlank, Keeps, LeavesItsTables, Commits, tables};

use crate::fault::StoreFault;
use dh_ddl::create_all;
use dh_rows::Meta;
use dh_tables::insert_meta;
use dh_types::{Month, Version};
use sqlite::{Alter, Connection};
use std::alloc::Global;

/// Makes the tables of the second version for empty books that begin with this month, in one transaction.
/// A file that has an object already is refused as a fault of the store, and nothing changes. Else a fault comes where memory runs out or
/// the store fails. Then a crash leaves the file as it was or with the new tables, and while the store is open it is as it was.
pub fn install<S: Alter>(
    alloc: Global,
    conn: &mut Connection<S>,
    first: Month,
) -> Result<(), StoreFault>
    requires { first ≤ LAST_ENTRY_MONTH }
    ensures done { HasCleanDisk (state S.Store conn.new) → OnOk result (IsReady (state S.Store conn.new) × (tables (state S.Store conn.new) ≡ start first)) }
    ensures left { HasCleanDisk (state S.Store conn.new) → OnOk result (LeavesItsTables (state S.Store conn.new)) }
    ensures undone { HasCleanDisk (state S.Store conn.new) → IsTrue (state S.Store conn.new).is_open
        → OnErr result ((state S.Store conn.new).committed ≡ (state S.Store conn.old).committed) }
    ensures kept { HasCleanDisk (state S.Store conn.new) → OnErr result (Keeps (state S.Store conn.old) (state S.Store conn.new)) }
    ensures cause { IfErr result IsFirstFault }
    ensures occupied { ¬ IsBlank (state S.Store conn.old) → (result ≡ Err fault.Store) × (conn.new ≡ conn.old) }
    ensures survives { Commits (state S.Store conn.old) (state S.Store conn.new) (λ t. t ≡ start first) }
{
    let schema = conn.schema();
    let is_blank = schema.tables.is_empty() & schema.indexes.is_empty() & schema.views.is_empty();
    if !is_blank || !conn.is_autocommit() {
        return Err(StoreFault::occupied(conn));
    }
    let mut tx = conn.transaction();
    create_all(&mut tx, Version::Second)?;
    insert_meta(alloc, &mut tx, &Meta::new(Version::Second, first, first))?;
    tx.commit()?;
    Ok(())
}
