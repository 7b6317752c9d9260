//! Lists of what happens to an agency's tables.

ghost use Rattle.std.specs.Prelude.{IfOk};
ghost use Rattle.dh_laws.specs.StateTables.{IsStateInOrder};
ghost use Rattle.dh_rules.specs.Playing.{IsPlayed, IsStep};

use crate::commands::{answered, interrupted_done};
use crate::recoveries::{Reach, interrupted_undone, recovered, recovery_interrupted};
use dh_books::Books;
use dh_types::{Command, Reply};
use std::alloc::{AllocError, Global};

/// What can happen to the tables.
#[derive(Drop)]
pub enum Happening {
    /// The command is answered.
    Answered(Command),
    /// The command is interrupted and changes no books. Batches of the open run may have been posted so far.
    Undone(Command, Reach),
    /// The command is interrupted and was carried out. An accepted run stands at so many batches, or is closed.
    Done(Command, Option<u128>),
    /// The files are taken as they are.
    Attached,
    /// A recovery is interrupted when it has come so far.
    RecoveryInterrupted(Reach),
    /// A recovery is finished.
    Recovered,
}

/// The tables after a list of happenings, and the replies to the commands that were answered.
#[derive(Drop)]
pub struct Played {
    pub tables: Books,
    pub replies: Vec<Reply>,
}

// The tables after a happening, and the reply where it is an answer.
#[derive(Drop)]
struct Happened {
    tables: Books,
    reply: Option<Reply>,
}

// What one happening makes of the tables.
fn happen(alloc: Global, before: Books, happening: &Happening) -> Result<Happened, AllocError>
    ensures { IfOk result (λ it. IsStateInOrder before → IsStep happening.now it.reply before it.tables × IsStateInOrder it.tables) }
{
    match happening {
        Happening::Answered(command) => {
            let told = answered(alloc, before, command)?;
            Ok(Happened {
                tables: told.tables,
                reply: Some(told.reply),
            })
        }
        Happening::Undone(command, reach) => Ok(Happened {
            tables: interrupted_undone(alloc, before, command, *reach)?,
            reply: None,
        }),
        Happening::Done(command, standing) => Ok(Happened {
            tables: interrupted_done(alloc, before, command, *standing)?,
            reply: None,
        }),
        Happening::Attached => Ok(Happened {
            tables: before,
            reply: None,
        }),
        Happening::RecoveryInterrupted(reach) => Ok(Happened {
            tables: recovery_interrupted(alloc, before, *reach)?,
            reply: None,
        }),
        Happening::Recovered => Ok(Happened {
            tables: recovered(alloc, before)?,
            reply: None,
        }),
    }
}

/// Plays the happenings one after the other. The commands that were answered, and those that were interrupted and carried out, are
/// those that stand behind the tables.
pub fn play(alloc: Global, start: Books, happenings: &[Happening]) -> Result<Played, AllocError>
    ensures { IfOk result (λ it. IsStateInOrder start → IsPlayed happenings.now it.replies.items start it.tables) }
{
    let mut tables = start;
    let mut replies = Vec::new(alloc);
    for happening in happenings {
        let left = happen(alloc, tables, happening)?;
        tables = left.tables;
        if let Some(reply) = left.reply {
            replies.push(reply)?;
        }
    }
    Ok(Played { tables, replies })
}
