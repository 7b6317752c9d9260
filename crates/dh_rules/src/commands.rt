//! Commands that are answered, and interrupted ones that were carried out.

ghost use Rattle.std.specs.Prelude.{◌≡◌, ℕ, false, Some, None, IfOk, IsSome};
ghost use Rattle.dh_types.specs.declared.command.Command.TheVariants as command;
ghost use Rattle.dh_model.specs.MachineLaws.{is_post};
ghost use Rattle.dh_model.specs.Runs.{batch_size};
ghost use Rattle.dh_model.specs.Verdicts.{run_verdict};
ghost use Rattle.dh_laws.specs.Events.{Happens, IsDone, Answered};
ghost use Rattle.dh_laws.specs.StateTables.{IsStateInOrder, as_tables};
ghost use Rattle.dh_laws.specs.Telling.{IsCutDone, IsTold, Stands, StandsAt, begun, is_opening, is_run};

use crate::changes::apply_change;
use crate::machine::step;
use crate::recoveries::{advanced, recovered};
use dh_answers::{decide, decide_run};
use dh_books::Books;
use dh_laws::entries::commands_are_entered;
use dh_leases::batches;
use dh_model::{Change, OpenRun, Verdict};
use dh_types::{BatchCount, Command, Progress, Reply, RunOrder};
use std::alloc::{AllocError, Global};

/// The tables after a command, and the reply.
#[derive(Drop)]
pub struct Outcome {
    pub tables: Books,
    pub reply: Reply,
}

// The tables with the rows of an opening, and no batch done.
fn begun(mut tables: Books, order: &RunOrder, rows: Change) -> Result<Books, AllocError>
    ensures { IfOk result (λ after. after ≡ begun order.now rows tables) }
{
    apply_change(&mut tables, rows)?;
    tables.set_open_run(Some(OpenRun {
        month: order.month,
        done: 0,
    }));
    Ok(tables)
}

// `open` over tables without an open run.
fn tell_opening(before: Books, order: &RunOrder) -> Result<Outcome, AllocError>
    requires { before.open_run ≡ None }
    ensures { IfOk result (λ it. IsStateInOrder before → IsTold batch_size (command.Open order.now) it.reply before it.tables) }
{
    match decide_run(&before, order) {
        Verdict::Change(rows) => Ok(Outcome {
            tables: begun(before, order, rows)?,
            reply: Reply::Opened(order.month),
        }),
        Verdict::Already(reply) => Ok(Outcome {
            tables: before,
            reply,
        }),
        Verdict::Refused(why) => Ok(Outcome {
            tables: before,
            reply: Reply::Refused(why),
        }),
    }
}

// Any other command over tables without an open run: these are whole books, and the machine's step is theirs.
fn tell_over_whole(alloc: Global, before: Books, command: &Command) -> Result<Outcome, AllocError>
    requires run { before.open_run ≡ None }
    requires command { is_opening command.now ≡ false }
    ensures { IfOk result (λ it. IsStateInOrder before → IsTold batch_size command.now it.reply before it.tables) }
{
    commands_are_entered(command);
    let stepped = step(alloc, before, command)?;
    Ok(Outcome {
        tables: stepped.books,
        reply: stepped.reply,
    })
}

// So many batches of the open run. Where they are all that are left, the machine closes it over the whole books.
fn tell_post(
    alloc: Global,
    before: Books,
    count: BatchCount,
    run: OpenRun,
) -> Result<Outcome, AllocError>
    requires { before.open_run ≡ Some run }
    ensures { IfOk result (λ it. IsStateInOrder before → IsTold batch_size (command.Post count) it.reply before it.tables) }
{
    let all = batches(alloc, &before, run.month)?;
    let more = u128::from(count.number());
    if all.saturating_sub(run.done) <= more {
        let mut whole = recovered(alloc, before)?;
        whole.set_open_run(Some(run));
        let command = Command::Post(count);
        let stepped = step(alloc, whole, &command)?;
        drop(command);
        return Ok(Outcome {
            tables: stepped.books,
            reply: stepped.reply,
        });
    }
    Ok(Outcome {
        tables: advanced(alloc, before, more)?,
        reply: Reply::Progress(Progress {
            month: run.month,
            done: run.done + more,
            of: all,
        }),
    })
}

// Any other command while a run is open: it is judged as over the whole books, and its rows pass the run.
fn tell_meanwhile(
    alloc: Global,
    mut before: Books,
    command: &Command,
) -> Result<Outcome, AllocError>
    requires run { IsSome before.open_run }
    requires command { is_post command.now ≡ false }
    ensures { IfOk result (λ it. IsStateInOrder before → IsTold batch_size command.now it.reply before it.tables) }
{
    commands_are_entered(command);
    let verdict = decide(alloc, &before, command)?;
    match verdict {
        Verdict::Change(rows) => {
            let reply = rows.reply();
            apply_change(&mut before, rows)?;
            Ok(Outcome {
                tables: before,
                reply,
            })
        }
        Verdict::Already(reply) => Ok(Outcome {
            tables: before,
            reply,
        }),
        Verdict::Refused(why) => Ok(Outcome {
            tables: before,
            reply: Reply::Refused(why),
        }),
    }
}

/// What an answered command makes of the tables: the reply is the machine's over the whole books.
pub fn answered(alloc: Global, before: Books, command: &Command) -> Result<Outcome, AllocError>
    ensures { IfOk result (λ it. IsStateInOrder before →
        Happens batch_size (Answered command.now it.reply) (as_tables before) (as_tables it.tables) × IsStateInOrder it.tables) }
{
    match before.open_run() {
        None => match command {
            Command::Open(order) => tell_opening(before, order),
            _ => tell_over_whole(alloc, before, command),
        },
        Some(run) => match command {
            Command::Post(count) => tell_post(alloc, before, *count, run),
            _ => tell_meanwhile(alloc, before, command),
        },
    }
}

// `run` over tables without an open run, cut after so many batches.
fn cut_run(alloc: Global, before: Books, order: &RunOrder, count: u128) -> Result<Books, AllocError>
    requires { before.open_run ≡ None }
    ensures { IfOk result (λ after. IsStateInOrder before → IsCutDone batch_size (command.Run order.now) before after
        × StandsAt order.now count (run_verdict before.books order.now) after) }
{
    match decide_run(&before, order) {
        Verdict::Change(rows) => advanced(alloc, begun(before, order, rows)?, count),
        Verdict::Already(_) | Verdict::Refused(_) => Ok(before),
    }
}

// Any other command than `run`, cut and carried out: as if it had been answered.
fn cut_other(alloc: Global, before: Books, command: &Command) -> Result<Books, AllocError>
    requires { is_run command.now ≡ false }
    ensures done { IfOk result (λ after. IsStateInOrder before → IsCutDone batch_size command.now before after) }
    ensures stands { IfOk result (λ after. (count : ℕ) → Stands before (Some count) command.now after) }
{
    Ok(answered(alloc, before, command)?.tables)
}

// A command that was interrupted and carried out: an accepted `run` stands at so many batches.
fn cut_standing(
    alloc: Global,
    before: Books,
    command: &Command,
    count: u128,
) -> Result<Books, AllocError>
    ensures done { IfOk result (λ after. IsStateInOrder before → IsCutDone batch_size command.now before after) }
    ensures stands { IfOk result (λ after. IsStateInOrder before → Stands before (Some count) command.now after) }
{
    match command {
        Command::Run(order) => match before.open_run() {
            None => cut_run(alloc, before, order, count),
            Some(_) => Ok(answered(alloc, before, command)?.tables),
        },
        _ => cut_other(alloc, before, command),
    }
}

/// The tables where a command was interrupted and yet carried out. An accepted `run` stands at `standing` batches, or at all where
/// there are fewer; with none given, and for any other command, they are as if it had been answered.
pub fn interrupted_done(
    alloc: Global,
    before: Books,
    command: &Command,
    standing: Option<u128>,
) -> Result<Books, AllocError>
    ensures done { IfOk result (λ after. IsStateInOrder before → IsDone batch_size command.now (as_tables before) (as_tables after) × IsStateInOrder after) }
    ensures stands { IfOk result (λ after. IsStateInOrder before → Stands before standing command.now after) }
{
    match standing {
        Some(count) => cut_standing(alloc, before, command, count),
        None => Ok(answered(alloc, before, command)?.tables),
    }
}
