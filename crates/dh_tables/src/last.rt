//! The receipt that was taken last.

ghost use Rattle.std.specs.Prelude.{IfOk, OnOk, OnErr};
ghost use Rattle.std.specs.Ordering.{nat_cmp};
ghost use Rattle.sqlite.specs.State.{HasCleanDisk, IsUnchanged};
ghost use Rattle.sqlite.specs.Held.{state};
ghost use Rattle.dh_laws.specs.Looks.{IsLast};
ghost use Rattle.dh_sql.specs.Shape.{IsGreatest, IsKept, rows_in};
ghost use Rattle.dh_tables.specs.Calls.{CommitsNothing, HasFailed, HasOurTables, IsCorrupt, IsUndone};
ghost use Rattle.dh_tables.specs.ReceiptTable.{receipt_shape};

use crate::one_record::only;
use crate::query::rows_shown;
use dh_ddl::text_of;
use dh_types::Receipt;
use sqlite::{Alter, Connection, Error, Row};
use std::alloc::Global;

// The row of the greatest number, where there is any.
fn last_row<S: Alter>(conn: &mut Connection<S>) -> Result<Vec<Row>, Error>
    requires reading { HasCleanDisk (state S.Store conn.old) → HasOurTables (state S.Store conn.old) }
    requires kept { HasCleanDisk (state S.Store conn.old) → IsKept receipt_shape nat_cmp (state S.Store conn.old).now.trees }
    ensures greatest { HasCleanDisk (state S.Store conn.new)
        → IfOk result (λ rows. IsGreatest receipt_shape ((state S.Store conn.old).now.trees receipt_shape.tree) rows.items) }
    ensures same { HasCleanDisk (state S.Store conn.new) → OnOk result (IsUnchanged (state S.Store conn.old) (state S.Store conn.new)) }
    ensures undone { HasCleanDisk (state S.Store conn.new) → OnErr result (IsUndone (state S.Store conn.old) (state S.Store conn.new)) }
    ensures corrupt { HasCleanDisk (state S.Store conn.new) → IsCorrupt result → HasFailed (state S.Store conn.old) (state S.Store conn.new) }
    ensures crash { CommitsNothing (state S.Store conn.old) (state S.Store conn.new) }
{
    rows_shown(
        conn,
        text_of!(select, receipt, " ORDER BY receipt_no DESC LIMIT 1"),
        &[],
    )
}

/// The receipt of the greatest number; None where there is none. It changes no table.
/// Where the row is no receipt, it answers that the database is corrupt; over a clean disk only where the disk has failed.
pub fn last_receipt<S: Alter>(
    alloc: Global,
    conn: &mut Connection<S>,
) -> Result<Option<Receipt>, Error>
    requires reading { HasCleanDisk (state S.Store conn.old) → HasOurTables (state S.Store conn.old) }
    requires kept { HasCleanDisk (state S.Store conn.old) → IsKept receipt_shape nat_cmp (state S.Store conn.old).now.trees }
    ensures last { HasCleanDisk (state S.Store conn.new) → IfOk result (IsLast (rows_in receipt_shape (state S.Store conn.old).now.trees)) }
    ensures same { HasCleanDisk (state S.Store conn.new) → OnOk result (IsUnchanged (state S.Store conn.old) (state S.Store conn.new)) }
    ensures undone { HasCleanDisk (state S.Store conn.new) → OnErr result (IsUndone (state S.Store conn.old) (state S.Store conn.new)) }
    ensures corrupt { HasCleanDisk (state S.Store conn.new) → IsCorrupt result → HasFailed (state S.Store conn.old) (state S.Store conn.new) }
    ensures crash { CommitsNothing (state S.Store conn.old) (state S.Store conn.new) }
{
    let rows = last_row(conn)?;
    only::<Receipt>(alloc, &rows)
}
