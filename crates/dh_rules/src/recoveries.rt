//! What recoveries make of the tables, and what a command leaves that is interrupted before it changed the books: batches of the open
//! run, and its end.

ghost use Rattle.std.specs.Prelude.{◌≡◌, None, IfOk};
ghost use Rattle.dh_model.specs.Runs.{batch_size};
ghost use Rattle.dh_model.specs.Whole.{whole};
ghost use Rattle.dh_laws.specs.Events.{Happens, IsUndone, Recovered, RecoveryInterrupted};
ghost use Rattle.dh_laws.specs.StateTables.{IsStateInOrder, advanced_run, as_tables};
ghost use Rattle.dh_rules.specs.Reaches.{batches_left, moved_run, reach_within, undone_run};

use dh_books::Books;
use dh_leases::{batches, whole, with_posted};
use dh_model::OpenRun;
use dh_types::{BatchCount, Command};
use std::alloc::{AllocError, Global};

/// How far the open run is moved on.
#[derive(Clone, Copy)]
pub enum Reach {
    /// By so many batches, as far as there are; it stays open.
    Batches(u128),
    /// To its end; it is closed.
    End,
}

/// The tables with so many batches more of the open run, as far as there are; it stays open.
pub(crate) fn advanced(alloc: Global, before: Books, count: u128) -> Result<Books, AllocError>
    ensures { IfOk result (λ after. IsStateInOrder before → IsStateInOrder after × (whole batch_size after.books ≡ whole batch_size before.books)
        × (after.open_run ≡ advanced_run (whole batch_size before.books) count before.open_run)) }
{
    let Some(run) = before.open_run() else {
        return Ok(before);
    };
    let all = batches(alloc, &before, run.month)?;
    let left = all.saturating_sub(run.done);
    let done = run.done + count.min(left);
    let mut after = with_posted(alloc, before, run.month, done)?;
    after.set_open_run(Some(OpenRun {
        month: run.month,
        done,
    }));
    Ok(after)
}

/// The tables with the open run made to its end: what a recovery leaves.
pub fn recovered(alloc: Global, before: Books) -> Result<Books, AllocError>
    ensures made { IfOk result (λ after. IsStateInOrder before →
        IsStateInOrder after × (after.books ≡ whole batch_size before.books) × (after.open_run ≡ None)) }
    ensures happens { IfOk result (λ after. Happens batch_size Recovered (as_tables before) (as_tables after)) }
{
    let mut after = whole(alloc, before)?;
    after.set_open_run(None);
    Ok(after)
}

/// The tables with the open run moved so far.
pub fn moved(alloc: Global, before: Books, reach: Reach) -> Result<Books, AllocError>
    ensures { IfOk result (λ after. IsStateInOrder before → IsStateInOrder after × (whole batch_size after.books ≡ whole batch_size before.books)
        × (after.open_run ≡ moved_run (whole batch_size before.books) reach before.open_run)) }
{
    match reach {
        Reach::Batches(count) => advanced(alloc, before, count),
        Reach::End => recovered(alloc, before),
    }
}

/// What a recovery leaves that is interrupted: the open run moved so far.
pub fn recovery_interrupted(alloc: Global, before: Books, reach: Reach) -> Result<Books, AllocError>
    ensures happens { IfOk result (λ after. IsStateInOrder before → Happens batch_size RecoveryInterrupted (as_tables before) (as_tables after)
        × IsStateInOrder after) }
    ensures run { IfOk result (λ after. IsStateInOrder before → after.open_run ≡ moved_run (whole batch_size before.books) reach before.open_run) }
{
    moved(alloc, before, reach)
}

// The batches that the open run lacks.
fn batches_left(alloc: Global, books: &Books) -> Result<u128, AllocError>
    ensures { IfOk result (λ left. left ≡ batches_left books.now.books books.now.open_run) }
{
    match books.open_run() {
        Some(run) => Ok(batches(alloc, books, run.month)?.saturating_sub(run.done)),
        None => Ok(0),
    }
}

// As far as that, but by so many batches at most.
fn reach_within(
    alloc: Global,
    books: &Books,
    count: BatchCount,
    reach: Reach,
) -> Result<Reach, AllocError>
    ensures { IfOk result (λ far. far ≡ reach_within (batches_left books.now.books books.now.open_run) count reach) }
{
    let most = u128::from(count.number());
    let left = batches_left(alloc, books)?;
    Ok(match reach {
        Reach::Batches(more) => Reach::Batches(more.min(most)),
        Reach::End if left <= most => Reach::End,
        Reach::End => Reach::Batches(most),
    })
}

/// What a command leaves that is interrupted before it changed the books: the tables as they were, but a `post` may have come so far
/// with its batches.
pub fn interrupted_undone(
    alloc: Global,
    before: Books,
    command: &Command,
    reach: Reach,
) -> Result<Books, AllocError>
    ensures happens { IfOk result (λ after. IsStateInOrder before →
        IsUndone batch_size command.now (as_tables before) (as_tables after) × IsStateInOrder after) }
    ensures run { IfOk result (λ after. IsStateInOrder before → after.open_run ≡ undone_run (whole batch_size before.books) command.now reach before.open_run) }
{
    match command {
        Command::Post(count) => {
            let far = reach_within(alloc, &before, *count, reach)?;
            moved(alloc, before, far)
        }
        _ => Ok(before),
    }
}
