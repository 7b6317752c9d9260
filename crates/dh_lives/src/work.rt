//! What is done over tables that were just opened.

ghost use Rattle.std.specs.Prelude.{◌≡◌, ◌+◌, true, false, None, Some, List, IfSome, IfErr, OnOk, OnErr, IsSome, length};
ghost use Rattle.sqlite.specs.State.{HasCleanDisk};
ghost use Rattle.sqlite.specs.Held.{state};
ghost use Rattle.dh_schema.specs.Faults.{IsFirstFault};
ghost use Rattle.dh_runs.specs.Taking.{IsResting};
ghost use Rattle.dh_lives.specs.declared.cause.Cause.TheVariants as cause;
ghost use Rattle.dh_types.specs.declared.command.Command.{Command};
ghost use Rattle.dh_lives.specs.Causes.{IsFirstCause};
ghost use Rattle.dh_lives.specs.Lives.{FitsCommands, IsWhole};

use crate::cause::Cause;
use crate::lives::Lived;
use dh_agency::{Agency, NotOpened, create, recover};
use dh_books::Books;
use dh_schema::load;
use dh_types::{Command, EntryMonth, Fault, Reply};
use sqlite::{Alter, Connection};
use std::alloc::Global;

/// What came of it.
#[derive(Drop)]
pub(crate) struct Done {
    pub lived: Lived,
    /// The books that were loaded.
    pub books: Option<Books>,
    /// What cut it.
    pub cause: Option<Cause>,
}

// No recovery and no command.
fn no_life(alloc: Global) -> Lived
    ensures { (commands : List Command) → FitsCommands commands result }
{
    Lived {
        recovered: false,
        replies: Vec::new(alloc),
        cut: None,
    }
}

impl Done {
    /// Nothing was done, for this cause.
    pub fn nothing(alloc: Global, cause: Cause) -> Done
        ensures cause { result.cause ≡ Some cause }
        ensures fits { (commands : List Command) → FitsCommands commands result.lived }
    {
        Done {
            lived: no_life(alloc),
            books: None,
            cause: Some(cause),
        }
    }

    // A life in which so many commands were answered.
    fn answered(replies: Vec<Reply>) -> Done
        ensures cause { result.cause ≡ None }
        ensures whole { IsWhole result.lived }
        ensures replies { result.lived.replies ≡ replies }
    {
        Done {
            lived: Lived {
                recovered: true,
                replies,
                cut: None,
            },
            books: None,
            cause: None,
        }
    }

    // The same, and the next command was interrupted by the fault.
    fn cut(replies: Vec<Reply>, fault: Fault) -> Done
        ensures cause { result.cause ≡ Some (cause.Fault fault) }
        ensures recovered { result.lived.recovered ≡ true }
        ensures cut { result.lived.cut ≡ Some (length replies.items) }
        ensures replies { result.lived.replies ≡ replies }
    {
        let cut = Some(replies.len());
        Done {
            lived: Lived {
                recovered: true,
                replies,
                cut,
            },
            books: None,
            cause: Some(Cause::Fault(fault)),
        }
    }
}

// Tells the command, and keeps the reply to it.
fn tell<S: Alter>(
    alloc: Global,
    agency: &mut Agency<S>,
    command: &Command,
    replies: &mut Vec<Reply>,
) -> Result<(), Fault>
    requires { agency.old.is_stopped ≡ false }
    ensures goes_on { OnOk result (agency.new.is_stopped ≡ false) }
    ensures kept { OnOk result (length replies.new.items ≡ length replies.old.items + 1) }
    ensures lost { OnErr result (replies.new.items ≡ replies.old.items) }
    ensures cause { IfErr result IsFirstFault }
{
    let reply = agency.step(alloc, command)?;
    match replies.push(reply) {
        Ok(()) => Ok(()),
        Err(_) => Err(Fault::Memory),
    }
}

// Tells the commands one after the other, up to a fault.
fn tell_all<S: Alter>(alloc: Global, agency: &mut Agency<S>, commands: &[Command]) -> Done
    requires { agency.old.is_stopped ≡ false }
    ensures fits { FitsCommands commands.now result.lived }
    ensures whole { result.cause ≡ None → IsWhole result.lived }
    ensures cause { IfSome result.cause IsFirstCause }
{
    let mut replies = Vec::new(alloc);
    for command in commands {
        if let Err(fault) = tell(alloc, agency, command, &mut replies) {
            return Done::cut(replies, fault);
        }
    }
    Done::answered(replies)
}

/// Makes an agency, whose books begin with the month.
pub(crate) fn create_over<S: Alter>(
    alloc: Global,
    conn: Connection<S>,
    first: EntryMonth,
) -> (Done, Connection<S>)
    ensures { IfSome result.0.cause IsFirstCause }
{
    match create(alloc, conn, first.month()) {
        Ok(agency) => (Done::answered(Vec::new(alloc)), agency.into_store()),
        Err(NotOpened { cause, conn }) => (Done::nothing(alloc, Cause::Fault(cause)), conn),
    }
}

/// Recovers the tables, and tells an agency over them the commands.
pub(crate) fn live_over<S: Alter>(
    alloc: Global,
    conn: Connection<S>,
    commands: &[Command],
) -> (Done, Connection<S>)
    requires { HasCleanDisk (state S.Store conn) → IsResting (state S.Store conn) }
    ensures fits { FitsCommands commands.now result.0.lived }
    ensures whole { result.0.cause ≡ None → IsWhole result.0.lived }
    ensures cause { IfSome result.0.cause IsFirstCause }
{
    match recover(alloc, conn) {
        Ok(mut agency) => {
            let done = tell_all(alloc, &mut agency, commands);
            (done, agency.into_store())
        }
        Err(NotOpened { cause, conn }) => (Done::nothing(alloc, Cause::from(cause)), conn),
    }
}

/// Loads the tables.
pub(crate) fn load_over<S: Alter>(alloc: Global, conn: &mut Connection<S>) -> Done
    ensures loaded { result.cause ≡ None → IsSome result.books }
    ensures cause { IfSome result.cause IsFirstCause }
{
    match load(alloc, conn) {
        Ok(books) => Done {
            lived: no_life(alloc),
            books: Some(books),
            cause: None,
        },
        Err(fault) => Done::nothing(alloc, Cause::from(fault)),
    }
}
