//! Commands that are interrupted: each in turn in each way. Beside the tables goes the machine, which is told the commands that count.

use crate::calls::{cut_after, cut_before, empty, end_recovery, interrupt_recovery, say, tell};
use dh_books::Books;
use dh_rules::Reach;
use dh_test_kit::{Block, Tally, Unreadable, command_if_any, parted};
use dh_types::{Command, Version};
use std::alloc::{AllocError, Global};
use std::io;

/// What a stop makes of a command.
#[derive(Clone, Copy)]
enum Way {
    Undone(Reach),
    Done(Option<u128>),
}

const WAYS: [Way; 7] = [
    Way::Undone(Reach::Batches(0)),
    Way::Undone(Reach::Batches(1)),
    Way::Undone(Reach::End),
    Way::Done(None),
    Way::Done(Some(0)),
    Way::Done(Some(2)),
    Way::Done(Some(9)),
];

// Tells both the command, and whether their replies are one.
fn tell_both(
    alloc: Global,
    tables: &mut Books,
    machine: &mut Books,
    command: &Command,
) -> Result<bool, AllocError> {
    let reply = say(alloc, tables, command)?;
    Ok(reply.as_str() == tell(alloc, machine, command)?.as_str())
}

// Cuts the command; the machine is told it where it was carried out.
fn cut(
    alloc: Global,
    tables: &mut Books,
    machine: &mut Books,
    command: &Command,
    way: Way,
) -> Result<(), AllocError> {
    match way {
        Way::Undone(reach) => cut_before(alloc, tables, command, reach)?,
        Way::Done(standing) => {
            cut_after(alloc, tables, command, standing)?;
            let _reply = tell(alloc, machine, command)?;
        }
    }
    machine.set_open_run(tables.open_run());
    Ok(())
}

// A recovery that is interrupted, and one that is finished.
fn recover(
    alloc: Global,
    tables: &mut Books,
    machine: &mut Books,
    reach: Reach,
) -> Result<(), AllocError> {
    interrupt_recovery(alloc, tables, reach)?;
    end_recovery(alloc, tables)?;
    machine.set_open_run(None);
    Ok(())
}

fn same_people(books: &Books, other: &Books) -> bool {
    books.branches().eq(other.branches())
        && books.staff().eq(other.staff())
        && books.owners().eq(other.owners())
        && books.clients().eq(other.clients())
        && books.registrations().eq(other.registrations())
}

fn same_properties(books: &Books, other: &Books) -> bool {
    books.properties().eq(other.properties())
        && books.viewings().eq(other.viewings())
        && books.inspections().eq(other.inspections())
        && books.leases().eq(other.leases())
        && books.endings().eq(other.endings())
}

fn same_runs(books: &Books, other: &Books) -> bool {
    books.charges().eq(other.charges())
        && books.receipts().eq(other.receipts())
        && books.runs().eq(other.runs())
        && books.parts().eq(other.parts())
        && books.next() == other.next()
        && books.version() == other.version()
}

fn same_fees(books: &Books, other: &Books) -> bool {
    books.branch_fees().eq(other.branch_fees()) && books.part_fees().eq(other.part_fees())
}

fn are_same(tables: &Books, machine: &Books) -> bool {
    same_people(tables, machine)
        && same_properties(tables, machine)
        && same_runs(tables, machine)
        && same_fees(tables, machine)
}

// Plays the commands, that of this place cut in this way, and whether all replies were one.
fn play_commands(
    alloc: Global,
    tables: &mut Books,
    machine: &mut Books,
    commands: &[Command],
    place: usize,
    way: Way,
) -> Result<bool, AllocError> {
    let mut is_same = true;
    for (at, command) in commands.iter().enumerate() {
        if at == place {
            cut(alloc, tables, machine, command, way)?;
            recover(alloc, tables, machine, Reach::Batches(1))?;
        } else {
            is_same &= tell_both(alloc, tables, machine, command)?;
        }
    }
    recover(alloc, tables, machine, Reach::Batches(0))?;
    Ok(is_same)
}

// Whether the replies are one, and in the end the tables are the machine's books.
fn ends_alike(
    alloc: Global,
    version: Version,
    commands: &[Command],
    place: usize,
    way: Way,
) -> Result<bool, AllocError> {
    let mut tables = empty(alloc, version);
    let mut machine = empty(alloc, version);
    let replied = play_commands(alloc, &mut tables, &mut machine, commands, place, way);
    Ok(replied? && are_same(&tables, &machine))
}

// The commands of the block and of those before it.
fn commands_of(alloc: Global, block: &Block) -> Result<Vec<Command>, Unreadable> {
    let mut commands = Vec::new(alloc);
    for line in &block.all {
        let (words, _) = parted(line.as_str());
        if let Some(command) = command_if_any(alloc, words)? {
            commands.push(command)?;
        }
    }
    Ok(commands)
}

fn play_place(
    rt: &HostRuntime,
    tally: &mut Tally,
    block: &Block,
    commands: &[Command],
    place: usize,
) -> io::Result<()> {
    for (number, way) in WAYS.iter().enumerate() {
        let is_alike = ends_alike(rt.alloc(), block.version, commands, place, *way)?;
        tally.add(is_alike);
        if !is_alike {
            println!(rt;
                "{}: command {place} cut in way {number}: other books",
                block.name
            )?;
        }
    }
    Ok(())
}

/// Plays the commands of the block and of those before it, with each in turn cut in each way and recovered.
pub(crate) fn play_with_cuts(rt: &HostRuntime, tally: &mut Tally, block: &Block) -> io::Result<()> {
    let Ok(commands) = commands_of(rt.alloc(), block) else {
        tally.add(false);
        return println!(rt; "{}: a command is not read", block.name);
    };
    for place in 0..commands.len() {
        play_place(rt, tally, block, &commands, place)?;
    }
    Ok(())
}
