//! Records that are found by their keys.

ghost use Rattle.sqlite.specs.State.{HasCleanDisk};
ghost use Rattle.sqlite.specs.Held.{state};
ghost use Rattle.dh_runs.specs.Taking.{IsResting};

use crate::lives::problem_text;
use crate::sound::sound_books;
use dh_runs::Problem;
use dh_schema::{KeyedRecord, find};
use dh_test_kit::{Fields, ToLine, Unreadable};
use dh_types::{
    Branch, BranchFee, Charge, Client, Ending, Inspection, Lease, Owner, Part, PartFee, Property,
    Receipt, Registration, Run, Staff, Viewing,
};
use sqlite::{Alter, Connection};
use std::alloc::{AllocError, Global};

// The line of the record that has the key, or `none`. A key that is not read is told before the tables are looked at.
fn line_of<R: KeyedRecord + ToLine + Drop, S: Alter>(
    alloc: Global,
    conn: &mut Connection<S>,
    key: Result<R::Key, Unreadable>,
) -> Result<String, Problem>
where
    R::Key: Drop,
    requires { HasCleanDisk (state S.Store conn.old) → IsResting (state S.Store conn.old) }
{
    let Ok(key) = key else {
        return Ok("not read".to_string(alloc)?);
    };
    let _books = sound_books(alloc, conn)?;
    match find::<R, S>(alloc, conn, &key)? {
        Some(record) => Ok(record.to_line(alloc)?),
        None => Ok("none".to_string(alloc)?),
    }
}

// The line of what `KIND,KEY` asks for.
fn line<S: Alter>(alloc: Global, conn: &mut Connection<S>, words: &str) -> Result<String, Problem>
    requires { HasCleanDisk (state S.Store conn.old) → IsResting (state S.Store conn.old) }
{
    let (kind, key) = words.split_once(',').unwrap_or((words, ""));
    let mut key = Fields::of(key);
    match kind {
        "branch" => line_of::<Branch, S>(alloc, conn, key.id()),
        "staff" => line_of::<Staff, S>(alloc, conn, key.id()),
        "owner" => line_of::<Owner, S>(alloc, conn, key.id()),
        "property" => line_of::<Property, S>(alloc, conn, key.id()),
        "client" => line_of::<Client, S>(alloc, conn, key.id()),
        "registration" => line_of::<Registration, S>(alloc, conn, key.ids()),
        "viewing" => line_of::<Viewing, S>(alloc, conn, key.ids()),
        "inspection" => line_of::<Inspection, S>(alloc, conn, key.id_and_day()),
        "lease" => line_of::<Lease, S>(alloc, conn, key.lease_no()),
        "ending" => line_of::<Ending, S>(alloc, conn, key.lease_no()),
        "charge" => line_of::<Charge, S>(alloc, conn, key.lease_and_index()),
        "receipt" => line_of::<Receipt, S>(alloc, conn, key.receipt_no()),
        "run" => line_of::<Run, S>(alloc, conn, key.month()),
        "part" => line_of::<Part, S>(alloc, conn, key.month_and_id()),
        "branch fee" => line_of::<BranchFee, S>(alloc, conn, key.id()),
        "part fee" => line_of::<PartFee, S>(alloc, conn, key.month_and_id()),
        _ => Ok("not read".to_string(alloc)?),
    }
}

/// The fields of the record that is found by `KIND,KEY`, or `none`, or why none is looked for.
pub(crate) fn find_text<S: Alter>(
    alloc: Global,
    conn: &mut Connection<S>,
    words: &str,
) -> Result<String, AllocError>
    requires { HasCleanDisk (state S.Store conn.old) → IsResting (state S.Store conn.old) }
{
    match line(alloc, conn, words) {
        Ok(line) => Ok(line),
        Err(problem) => problem_text(alloc, problem),
    }
}
