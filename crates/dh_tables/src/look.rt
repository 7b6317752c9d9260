//! Looking at some rows of a table.

ghost use Rattle.std.specs.Prelude.{◌≡◌, ℕ, Bool, List, [], IfOk, OnOk, OnErr};
ghost use Rattle.std.specs.List.{AllByRecursion, IsDistinct};
ghost use Rattle.std.specs.Ordering.{eq_by_cmp};
ghost use Rattle.sqlite_value.specs.Order.{Row as SqlRow};
ghost use Rattle.sqlite.specs.Values.{bound};
ghost use Rattle.sqlite.specs.State.{HasCleanDisk, IsUnchanged};
ghost use Rattle.sqlite.specs.Held.{state};
ghost use Rattle.dh_model.specs.Whole.{rows_where};
ghost use Rattle.dh_sql.specs.Shape.{IsKept, rows_in, rows_of, shown_keys};
ghost use Rattle.dh_tables.specs.Questions.{Asking, IsAskedRow, IsAsking, IsQuestion, Question};
ghost use Rattle.dh_tables.specs.Calls.{AreAsked, CommitsNothing, HasFailed, HasTables, IsCorrupt, IsUndone};

use crate::Tabled;
use crate::query::rows_shown;
use sqlite::types::ValueRef;
use sqlite::{Alter, Connection, Error, Row};
use std::alloc::{AllocError, Global};

/// A question about the rows of one table, answered by a fixed text.
pub trait Look {
    /// The records that are looked at.
    type Record: Tabled;

    /// Which of them are asked for.
    ghost asks: { Self → Self.Record → Bool };

    /// The text, and its parameters.
    ghost asking: { Asking };

    ghost given: { Self → SqlRow };

    /// The text of the question's day, and no byte where it has none.
    ghost day_column: { Self → List ℕ } = { λ _. [] };

    /// What the question's type tells of its values.
    ghost can_ask: { Self → Type 0 } = { λ _. Unit {0} };

    /// The text.
    fn text() -> &'static str
        ensures { result.now ≡ asking.text };

    /// The text of the question's day, and no byte where it has none.
    fn day_bytes(&self, alloc: Global) -> Result<Vec<u8>, AllocError>
        ensures { IfOk result (λ text. text.items ≡ day_column self.now) };

    /// The parameters, given the text of the day, as `day_bytes` answers it.
    fn params<'a>(&'a self, alloc: Global, day: &'a [u8]) -> Result<Vec<ValueRef<'a>>, AllocError>
        requires { day.now ≡ day_column self.now }
        ensures values { IfOk result (λ values. bound values.items ≡ given self.now) }
        ensures known { IfOk result (λ _. can_ask self.now) };

    ghost is_asking: { IsAsking Self.Record.since Self.Record.shape asking can_ask given asks };
}

/// A question that gives its text no day.
pub trait PlainLook {
    /// The records that are looked at.
    type Record: Tabled;

    /// The text, its parameters, and which records are asked for.
    ghost question: { Question Self Self.Record };

    /// The text.
    fn asked_text() -> &'static str
        ensures { result.now ≡ question.asking.text };

    /// The parameters.
    fn values(&self, alloc: Global) -> Result<Vec<ValueRef<'_>>, AllocError>
        ensures { IfOk result (λ values. bound values.items ≡ question.given self.now) };

    ghost is_question: { IsQuestion Self.Record.since Self.Record.shape question };
}

impl<L: PlainLook> Look for L {
    type Record = L::Record;

    ghost asks = { L.question.asks };

    ghost asking = { L.question.asking };

    ghost given = { L.question.given };

    fn text() -> &'static str {
        L::asked_text()
    }

    fn day_bytes(&self, alloc: Global) -> Result<Vec<u8>, AllocError> {
        Ok(Vec::new(alloc))
    }

    fn params<'a>(
        &'a self,
        alloc: Global,
        _day: &'a [u8],
    ) -> Result<Vec<ValueRef<'a>>, AllocError> {
        self.values(alloc)
    }

    ghost is_asking = { L.is_question };
}

/// The rows that are asked for, in some order, none twice. It changes nothing. Over a clean disk it answers that the database is
/// corrupt only where the disk has failed.
pub fn rows_asked<L: Look, S: Alter>(
    alloc: Global,
    conn: &mut Connection<S>,
    question: &L,
) -> Result<Vec<Row>, Error>
    requires reading { HasCleanDisk (state S.Store conn.old) → HasTables L.Record.since (state S.Store conn.old) }
    requires kept { HasCleanDisk (state S.Store conn.old) → IsKept L.Record.shape L.Record.order (state S.Store conn.old).now.trees }
    ensures rows { HasCleanDisk (state S.Store conn.new)
        → IfOk result (λ rows. AreAsked L.Record.shape L.Record.order (L.asks question.now) (state S.Store conn.old) rows.items) }
    ensures records { HasCleanDisk (state S.Store conn.new)
        → IfOk result (λ rows. AllByRecursion (IsAskedRow L.Record.shape (L.asks question.now)) rows.items) }
    ensures distinct { HasCleanDisk (state S.Store conn.new)
        → IfOk result (λ rows. IsDistinct (eq_by_cmp L.Record.order) (shown_keys L.Record.shape rows.items)) }
    ensures same { HasCleanDisk (state S.Store conn.new) → OnOk result (IsUnchanged (state S.Store conn.old) (state S.Store conn.new)) }
    ensures undone { HasCleanDisk (state S.Store conn.new) → OnErr result (IsUndone (state S.Store conn.old) (state S.Store conn.new)) }
    ensures corrupt { HasCleanDisk (state S.Store conn.new) → IsCorrupt result → HasFailed (state S.Store conn.old) (state S.Store conn.new) }
    ensures crash { CommitsNothing (state S.Store conn.old) (state S.Store conn.new) }
{
    let day = question.day_bytes(alloc)?;
    let params = question.params(alloc, &day)?;
    rows_shown(conn, L::text(), &params)
}
