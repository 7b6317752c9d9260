//! What the tables say of a command.

ghost use Rattle.std.specs.Prelude.{◌≡◌, ◌≤◌, IsTrue, None, IfOk, IfErr, OnOk, OnErr};
ghost use Rattle.sqlite_trees.specs.View.{doubt};
ghost use Rattle.sqlite.specs.State.{HasCleanDisk};
ghost use Rattle.sqlite.specs.Held.{state};
ghost use Rattle.dh_model.specs.Verdicts.{verdict_on};
ghost use Rattle.dh_laws.specs.Looks.{month_open};
ghost use Rattle.dh_answers.specs.Seen.{put_off_by};
ghost use Rattle.dh_schema.specs.Faults.{IsFirstFault};
ghost use Rattle.dh_schema.specs.Store.{IsReady, Leaves, StaysReady, tables};
ghost use Rattle.dh_schema.specs.Months.{IsReadyIn};
ghost use Rattle.dh_schema.specs.Reading.{OnlyReads};

use crate::verdicts::facts::{count_for, gather_rows, open_month};
use dh_answers::{Facts, decide_on, open_refusal};
use dh_books::Books;
use dh_model::Verdict;
use dh_rows::Meta;
use dh_schema::{StoreFault, months_now};
use dh_types::{Command, EntryMonth};
use sqlite::{Alter, Connection};
use std::alloc::Global;

// The verdict on the command, from the rows that it looks at. The open run of this month does not put it off.
fn ask_rows<S: Alter>(
    alloc: Global,
    conn: &mut Connection<S>,
    command: &Command,
    months: Meta,
    open_month: Option<EntryMonth>,
) -> Result<Verdict, StoreFault>
    requires ready { HasCleanDisk (state S.Store conn.old) → IsReadyIn months (state S.Store conn.old) }
    requires month { HasCleanDisk (state S.Store conn.old) → open_month ≡ month_open (tables (state S.Store conn.old)).open_run }
    requires passed { put_off_by open_month command.now ≡ None }
    ensures verdict { HasCleanDisk (state S.Store conn.new)
        → IfOk result (λ v. v ≡ verdict_on (tables (state S.Store conn.old)).books (tables (state S.Store conn.old)).open_run command.now) }
    ensures reads { OnlyReads (state S.Store conn.old) (state S.Store conn.new) result }
{
    let version = months.version();
    let mut books = Books::new(alloc, version, months.first(), months.next());
    gather_rows(alloc, conn, version, command, &mut books)?;
    let receipts = count_for(alloc, conn, command)?;
    let facts = Facts {
        books,
        receipts,
        open_month,
    };
    Ok(decide_on(alloc, &facts, command)?)
}

// The verdict on the command. What an open run puts off is refused before any other row is read.
fn ask_tables<S: Alter>(
    alloc: Global,
    conn: &mut Connection<S>,
    command: &Command,
) -> Result<Verdict, StoreFault>
    requires { HasCleanDisk (state S.Store conn.old) → IsReady (state S.Store conn.old) }
    ensures verdict { HasCleanDisk (state S.Store conn.new)
        → IfOk result (λ v. v ≡ verdict_on (tables (state S.Store conn.old)).books (tables (state S.Store conn.old)).open_run command.now) }
    ensures reads { OnlyReads (state S.Store conn.old) (state S.Store conn.new) result }
{
    let months = months_now(alloc, conn)?;
    let open_month = open_month(alloc, conn, months)?;
    match open_refusal(&open_month, command) {
        Some(refusal) => Ok(Verdict::Refused(refusal)),
        None => ask_rows(alloc, conn, command, months, open_month),
    }
}

/// The verdict on the command, of which only the rows that it looks at are read, and none where an open run puts it off. It
/// changes nothing, at a fault too.
pub fn ask<S: Alter>(
    alloc: Global,
    conn: &mut Connection<S>,
    command: &Command,
) -> Result<Verdict, StoreFault>
    requires { HasCleanDisk (state S.Store conn.old) → IsReady (state S.Store conn.old) }
    ensures verdict { HasCleanDisk (state S.Store conn.new)
        → IfOk result (λ v. v ≡ verdict_on (tables (state S.Store conn.old)).books (tables (state S.Store conn.old)).open_run command.now) }
    ensures done { HasCleanDisk (state S.Store conn.new) → OnOk result (StaysReady (state S.Store conn.old) (state S.Store conn.new)) }
    ensures undone { HasCleanDisk (state S.Store conn.new) → IsTrue (state S.Store conn.new).is_open
        → OnErr result (StaysReady (state S.Store conn.old) (state S.Store conn.new)) }
    ensures cause { IfErr result IsFirstFault }
    ensures crash { HasCleanDisk (state S.Store conn.new) → Leaves (state S.Store conn.new) (λ t. t ≡ tables (state S.Store conn.old)) }
    ensures was_clean { doubt (state S.Store conn.old).is_clean ≤ doubt (state S.Store conn.new).is_clean }
{
    ask_tables(alloc, conn, command)
}
