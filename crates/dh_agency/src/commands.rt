//! A command carried out on the tables.

ghost use Rattle.std.specs.Prelude.{◌≡◌, ◌≤◌, true, false, IsTrue, IfOk, IfErr, OnOk, OnErr};
ghost use Rattle.sqlite.specs.State.{HasCleanDisk};
ghost use Rattle.sqlite.specs.Held.{state};
ghost use Rattle.sqlite_trees.specs.View.{doubt};
ghost use Rattle.dh_types.specs.declared.version.Version.TheVariants.{Second};
ghost use Rattle.dh_model.specs.declared.rows.Verdict.TheVariants as verdict;
ghost use Rattle.dh_model.specs.MachineLaws.{is_post};
ghost use Rattle.dh_model.specs.Verdicts.{verdict_on};
ghost use Rattle.dh_laws.specs.Batches.{is_plain};
ghost use Rattle.dh_schema.specs.Faults.{IsFirstFault};
ghost use Rattle.dh_schema.specs.Store.{IsReady, IsReadyWith, Leaves, tables};
ghost use Rattle.dh_runs.specs.Taking.{HasVersion};
ghost use Rattle.dh_agency.specs.Outcomes.{IsInterrupted, IsAnsweredBy, reply_of};

use dh_laws::entries::commands_are_entered;
use dh_laws::facts::accepted_changes_fit;
use dh_model::{Change, Verdict};
use dh_runs::{RunState, open_run, post_some, run_all};
use dh_schema::StoreFault;
use dh_store::{apply, ask};
use dh_types::{Command, Refusal, Reply, Version};
use sqlite::{Alter, Connection};
use std::alloc::Global;

// What posting batches is answered.
fn reply_of(state: RunState) -> Reply
    ensures { result ≡ reply_of state }
{
    match state {
        RunState::NoRun => Reply::Refused(Refusal::NoRun),
        RunState::Part(progress) => Reply::Progress(progress),
        RunState::Posted(sum) => Reply::Posted(sum),
    }
}

// Puts the rows of an accepted command into the tables that is not of a run.
fn apply_change<S: Alter>(
    alloc: Global,
    conn: &mut Connection<S>,
    command: &Command,
    change: &Change,
) -> Result<Reply, StoreFault>
    requires ready { HasCleanDisk (state S.Store conn.old) → IsReady (state S.Store conn.old) }
    requires second { HasCleanDisk (state S.Store conn.old) → HasVersion Second (state S.Store conn.old) }
    requires plain { HasCleanDisk (state S.Store conn.old) → is_plain change.now ≡ true }
    requires verdict { HasCleanDisk (state S.Store conn.old)
        → verdict_on (tables (state S.Store conn.old)).books (tables (state S.Store conn.old)).open_run command.now ≡ verdict.Change change.now }
    ensures ready { HasCleanDisk (state S.Store conn.new) → OnOk result (IsReady (state S.Store conn.new)) }
    ensures said { HasCleanDisk (state S.Store conn.new)
        → IfOk result (λ reply. IsAnsweredBy command.now reply (tables (state S.Store conn.old)) (tables (state S.Store conn.new))) }
    ensures crash { HasCleanDisk (state S.Store conn.new) → Leaves (state S.Store conn.new) (IsInterrupted command.now (tables (state S.Store conn.old))) }
    ensures halted { HasCleanDisk (state S.Store conn.new) → IsTrue (state S.Store conn.new).is_open
        → OnErr result (IsReadyWith (state S.Store conn.new) (IsInterrupted command.now (tables (state S.Store conn.old)))) }
    ensures cause { IfErr result IsFirstFault }
    ensures was_clean { doubt (state S.Store conn.old).is_clean ≤ doubt (state S.Store conn.new).is_clean }
{
    commands_are_entered(command);
    accepted_changes_fit();
    apply(alloc, conn, change)?;
    Ok(change.reply())
}

// Carries out an accepted command: the rows, and the batches of a run.
fn accept<S: Alter>(
    alloc: Global,
    conn: &mut Connection<S>,
    command: &Command,
    change: &Change,
) -> Result<Reply, StoreFault>
    requires ready { HasCleanDisk (state S.Store conn.old) → IsReady (state S.Store conn.old) }
    requires second { HasCleanDisk (state S.Store conn.old) → HasVersion Second (state S.Store conn.old) }
    requires other { is_post command.now ≡ false }
    requires verdict { HasCleanDisk (state S.Store conn.old)
        → verdict_on (tables (state S.Store conn.old)).books (tables (state S.Store conn.old)).open_run command.now ≡ verdict.Change change.now }
    ensures ready { HasCleanDisk (state S.Store conn.new) → OnOk result (IsReady (state S.Store conn.new)) }
    ensures said { HasCleanDisk (state S.Store conn.new)
        → IfOk result (λ reply. IsAnsweredBy command.now reply (tables (state S.Store conn.old)) (tables (state S.Store conn.new))) }
    ensures crash { HasCleanDisk (state S.Store conn.new) → Leaves (state S.Store conn.new) (IsInterrupted command.now (tables (state S.Store conn.old))) }
    ensures halted { HasCleanDisk (state S.Store conn.new) → IsTrue (state S.Store conn.new).is_open
        → OnErr result (IsReadyWith (state S.Store conn.new) (IsInterrupted command.now (tables (state S.Store conn.old)))) }
    ensures cause { IfErr result IsFirstFault }
    ensures was_clean { doubt (state S.Store conn.old).is_clean ≤ doubt (state S.Store conn.new).is_clean }
{
    match command {
        Command::Run(order) => {
            let sum = run_all(alloc, conn, Version::Second, order, change)?;
            Ok(Reply::Posted(sum))
        }
        Command::Open(order) => {
            open_run(alloc, conn, change)?;
            Ok(Reply::Opened(order.month))
        }
        _ => apply_change(alloc, conn, command, change),
    }
}

/// Posts batches, or asks for the verdict on the command and carries it out where it is accepted. A refusal is a reply and changes
/// nothing.
pub(crate) fn carry_out<S: Alter>(
    alloc: Global,
    conn: &mut Connection<S>,
    command: &Command,
) -> Result<Reply, StoreFault>
    requires ready { HasCleanDisk (state S.Store conn.old) → IsReady (state S.Store conn.old) }
    requires second { HasCleanDisk (state S.Store conn.old) → HasVersion Second (state S.Store conn.old) }
    ensures ready { HasCleanDisk (state S.Store conn.new) → OnOk result (IsReady (state S.Store conn.new)) }
    ensures said { HasCleanDisk (state S.Store conn.new)
        → IfOk result (λ reply. IsAnsweredBy command.now reply (tables (state S.Store conn.old)) (tables (state S.Store conn.new))) }
    ensures crash { HasCleanDisk (state S.Store conn.new) → Leaves (state S.Store conn.new) (IsInterrupted command.now (tables (state S.Store conn.old))) }
    ensures halted { HasCleanDisk (state S.Store conn.new) → IsTrue (state S.Store conn.new).is_open
        → OnErr result (IsReadyWith (state S.Store conn.new) (IsInterrupted command.now (tables (state S.Store conn.old)))) }
    ensures cause { IfErr result IsFirstFault }
    ensures was_clean { doubt (state S.Store conn.old).is_clean ≤ doubt (state S.Store conn.new).is_clean }
{
    if let Command::Post(count) = command {
        let state = post_some(alloc, conn, u128::from(count.number()))?;
        return Ok(reply_of(state));
    }
    match ask(alloc, conn, command)? {
        Verdict::Change(change) => {
            let reply = accept(alloc, conn, command, &change);
            drop(change);
            reply
        }
        Verdict::Already(reply) => Ok(reply),
        Verdict::Refused(refusal) => Ok(Reply::Refused(refusal)),
    }
}
