//! A query of our tables.

ghost use Rattle.std.specs.Prelude.{IfOk, OnOk, OnErr};
ghost use Rattle.sqlite.specs.Values.{bound};
ghost use Rattle.sqlite.specs.State.{HasCleanDisk, IsUnchanged, Shown};
ghost use Rattle.sqlite.specs.Held.{state};
ghost use Rattle.dh_tables.specs.Calls.{CommitsNothing, HasFailed, IsCorrupt, IsQuery, IsUndone};

use sqlite::types::ValueRef;
use sqlite::{Alter, Connection, Error, Row};

// The rows that the query shows. It changes nothing. Over a clean disk it answers that the database is corrupt only where the
// disk has failed.
pub(crate) fn rows_shown<S: Alter>(
    conn: &mut Connection<S>,
    text: &str,
    params: &[ValueRef<'_>],
) -> Result<Vec<Row>, Error>
    requires query { HasCleanDisk (state S.Store conn.old) → IsQuery text.now (state S.Store conn.old) }
    ensures shown { HasCleanDisk (state S.Store conn.new)
        → IfOk result (λ rows. Shown text.now (bound params.now) (state S.Store conn.old) (state S.Store conn.new) rows.items) }
    ensures same { HasCleanDisk (state S.Store conn.new) → OnOk result (IsUnchanged (state S.Store conn.old) (state S.Store conn.new)) }
    ensures undone { HasCleanDisk (state S.Store conn.new) → OnErr result (IsUndone (state S.Store conn.old) (state S.Store conn.new)) }
    ensures corrupt { HasCleanDisk (state S.Store conn.new) → IsCorrupt result → HasFailed (state S.Store conn.old) (state S.Store conn.new) }
    ensures crash { CommitsNothing (state S.Store conn.old) (state S.Store conn.new) }
{
    conn.query_all(text, params)
}
