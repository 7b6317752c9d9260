//! Lives one after the other.

ghost use Rattle.std.specs.Prelude.{◌≡◌, ◌++◌, ◌≤◌, None, [], ◌∷◌, is_some, IfSome, IsSome, IfOk, IfErr, OnOk};
ghost use Rattle.dh_days.specs.declared.limits.TheConstants.{LAST_ENTRY_MONTH};
ghost use Rattle.dh_schema.specs.Faults.{IsFirstFault};
ghost use Rattle.dh_lives.specs.Causes.{IsFirstCause, fault_of_cause, life_lived};
ghost use Rattle.dh_lives.specs.Lives.{AreAccountsOf, IsAccountOf, ends_whole};

use crate::cause::Cause;
use crate::disks::{Measures, Stopping, copy_of, no_files};
use crate::files::{create_on, live_on, load_on};
use crate::lives::{Account, Life, Lived, Stop};
use crate::work::Done;
use dh_books::Books;
use dh_types::{EntryMonth, Fault, Month};
use sqlite::Files;
use sqlite_disk::Crash;
use std::alloc::{AllocError, Global};
use std::io;

/// Lives as they were lived, and the files as a power cut behind the last of them left them.
#[derive(Drop)]
pub struct Rehearsed {
    pub lives: Vec<Lived>,
    pub files: Files<Stopping>,
}

// The fault that a rehearsal ends with. An agency's own tables are sound, so a store that shows others is not clean.
fn fault_of_cause(cause: Cause) -> Fault
    requires { IsFirstCause cause }
    ensures value { result ≡ fault_of_cause cause }
    ensures first { IsFirstFault result }
{
    match cause {
        Cause::Fault(fault) => fault,
        Cause::Refused(_) => Fault::Store,
    }
}

// Disks in memory fail to be made for want of memory alone.
fn made(files: io::Result<Files<Stopping>>) -> Result<Files<Stopping>, Cause>
    ensures { IfErr result IsFirstCause }
{
    match files {
        Ok(files) => Ok(files),
        Err(_) => Err(Cause::Fault(Fault::Memory)),
    }
}

fn measures_of(stop: Option<Stop>) -> Measures {
    match stop {
        Some(stop) => Measures::of(stop.file, u64::from(stop.after)),
        None => Measures::NO_END,
    }
}

// The files as a power cut leaves them.
fn left_by_power_cut(mut files: Files<Stopping>) -> Files<Stopping> {
    files.log.crash();
    files.db.crash();
    files
}

// A copy of the files, with the next stop.
fn copied(
    alloc: Global,
    files: &Files<Stopping>,
    stop: Option<Stop>,
) -> Result<Files<Stopping>, Cause>
    ensures { IfErr result IsFirstCause }
{
    made(copy_of(alloc, files, measures_of(stop)))
}

// The files of a new agency, behind a power cut.
fn created(alloc: Global, first: EntryMonth) -> Result<Files<Stopping>, Cause>
    ensures { IfErr result IsFirstCause }
{
    let files = made(no_files(alloc, Measures::NO_END))?;
    let (done, left) = create_on(alloc, files, first);
    let Done {
        lived,
        books,
        cause,
    } = done;
    drop(lived);
    drop(books);
    match cause {
        None => Ok(left_by_power_cut(left)),
        Some(cause) => Err(cause),
    }
}

// The life as it was lived, if nothing cut it but its stop, and otherwise what cut it.
fn accounted(done: Done, stop: Option<Stop>) -> Result<Lived, Cause>
    requires { IfSome done.cause IsFirstCause }
    ensures value { result ≡ life_lived done.lived done.cause stop }
    ensures lived { IfOk result (λ lived. lived ≡ done.lived) }
    ensures whole { stop ≡ None → OnOk result (done.cause ≡ None) }
    ensures cause { IfErr result IsFirstCause }
{
    match (done.cause, stop) {
        (None, _) | (Some(Cause::Fault(_)), Some(_)) => Ok(done.lived),
        (Some(cause), _) => Err(cause),
    }
}

// Plays one life on a copy of the files, up to a power cut.
fn live(
    alloc: Global,
    files: &Files<Stopping>,
    life: &Life,
) -> Result<(Lived, Files<Stopping>), Cause>
    ensures account { IfOk result (λ it. IsAccountOf life.now it.0) }
    ensures cause { IfErr result IsFirstCause }
{
    let files = copied(alloc, files, life.stop)?;
    let (done, left) = live_on(alloc, files, &life.commands);
    Ok((accounted(done, life.stop)?, left_by_power_cut(left)))
}

fn keep(accounts: &mut Vec<Lived>, lived: Lived) -> Result<(), AllocError>
    ensures { OnOk result (accounts.new.items ≡ accounts.old.items ++ lived ∷ []) }
{
    accounts.push(lived)?;
    Ok(())
}

// Plays the lives on the files.
fn live_each(alloc: Global, mut files: Files<Stopping>, lives: &[Life]) -> Result<Rehearsed, Cause>
    ensures accounts { IfOk result (λ it. AreAccountsOf lives.now it.lives.items) }
    ensures cause { IfErr result IsFirstCause }
{
    let mut accounts = Vec::new(alloc);
    for life in lives {
        let (lived, left) = live(alloc, &files, life)?;
        keep(&mut accounts, lived)?;
        files = left;
    }
    Ok(Rehearsed {
        lives: accounts,
        files,
    })
}

// Makes an agency and plays the lives.
fn live_anew(alloc: Global, first: EntryMonth, lives: &[Life]) -> Result<Rehearsed, Cause>
    ensures accounts { IfOk result (λ it. AreAccountsOf lives.now it.lives.items) }
    ensures cause { IfErr result IsFirstCause }
{
    let files = created(alloc, first)?;
    live_each(alloc, files, lives)
}

// Plays the lives on a copy of the files.
fn live_on_copy(alloc: Global, files: &Files<Stopping>, lives: &[Life]) -> Result<Rehearsed, Cause>
    ensures accounts { IfOk result (λ it. AreAccountsOf lives.now it.lives.items) }
    ensures cause { IfErr result IsFirstCause }
{
    let files = copied(alloc, files, None)?;
    live_each(alloc, files, lives)
}

// The books that the tables mean.
fn loaded(alloc: Global, files: Files<Stopping>) -> Result<Option<Books>, Fault>
    ensures books { IfOk result (λ books. IsSome books) }
    ensures cause { IfErr result IsFirstFault }
{
    let (done, left) = load_on(alloc, files);
    drop(left);
    let Done {
        lived,
        books,
        cause,
    } = done;
    drop(lived);
    match cause {
        None => Ok(books),
        Some(cause) => Err(fault_of_cause(cause)),
    }
}

// Whether the last life has no stop.
#[tactic(auto, using(crate::proofs::AccountLemmas::ends_at))]
fn ends_whole(lives: &[Life]) -> bool
    ensures { result ≡ ends_whole lives.now }
{
    match lives.last() {
        Some(life) => life.stop.is_none(),
        None => true,
    }
}

// The account of the lives that were played, with the books in the end.
fn account_of(alloc: Global, rehearsed: Rehearsed, lives: &[Life]) -> Result<Account, Fault>
    ensures lives { IfOk result (λ it. it.lives ≡ rehearsed.lives) }
    ensures books { IfOk result (λ it. is_some it.books ≡ ends_whole lives.now) }
    ensures cause { IfErr result IsFirstFault }
{
    let Rehearsed {
        lives: accounts,
        files,
    } = rehearsed;
    let books = if ends_whole(lives) {
        loaded(alloc, files)?
    } else {
        None
    };
    Ok(Account {
        lives: accounts,
        books,
    })
}

/// Plays the lives as [`rehearse`] does, and answers what came of each, with the files as a power cut behind the last of them left
/// them. The faults are those of `rehearse`. What an account tells is said by `AreAccountsOf`.
pub fn live_through(alloc: Global, first: Month, lives: &[Life]) -> Result<Rehearsed, Fault>
    requires { first ≤ LAST_ENTRY_MONTH }
    ensures accounts { IfOk result (λ it. AreAccountsOf lives.now it.lives.items) }
    ensures cause { IfErr result IsFirstFault }
{
    match live_anew(alloc, EntryMonth::of_number(first.number()), lives) {
        Ok(rehearsed) => Ok(rehearsed),
        Err(cause) => Err(fault_of_cause(cause)),
    }
}

/// Plays the lives behind others, as [`live_through`] plays them all, and answers what came of these. It works on a copy of the files
/// that the others left, so that many lives can be tried behind them. What an account tells is said by `AreAccountsOf`.
pub fn live_behind(alloc: Global, behind: &Rehearsed, lives: &[Life]) -> Result<Rehearsed, Fault>
    ensures accounts { IfOk result (λ it. AreAccountsOf lives.now it.lives.items) }
    ensures cause { IfErr result IsFirstFault }
{
    match live_on_copy(alloc, &behind.files, lives) {
        Ok(rehearsed) => Ok(rehearsed),
        Err(cause) => Err(fault_of_cause(cause)),
    }
}

/// Makes an agency on disks in memory, whose books begin with the month, and then plays the lives one after the other. Each life
/// begins with a power cut and a recovery, which its stop may hit; then its commands are told. A life that nothing cut ends with its
/// files closed. In a life with a stop each fault counts as that stop. A fault of the making or of a life without a stop is answered,
/// and so is one of reading the books in the end: 21 where memory ran out, 22 where the store failed or shows what an agency's
/// tables cannot. What the account tells is said by `AreAccountsOf`.
pub fn rehearse(alloc: Global, first: Month, lives: &[Life]) -> Result<Account, Fault>
    requires { first ≤ LAST_ENTRY_MONTH }
    ensures accounts { IfOk result (λ it. AreAccountsOf lives.now it.lives.items) }
    ensures books { IfOk result (λ it. is_some it.books ≡ ends_whole lives.now) }
    ensures cause { IfErr result IsFirstFault }
{
    let rehearsed = live_through(alloc, first, lives)?;
    account_of(alloc, rehearsed, lives)
}

/// Plays the lives behind others, as [`rehearse`] plays them all, and answers the account of these, with the books that all of them
/// make. It works on a copy of the files that the others left, so that many lives can be tried behind them. What the account tells
/// is said by `AreAccountsOf`.
pub fn rehearse_behind(alloc: Global, behind: &Rehearsed, lives: &[Life]) -> Result<Account, Fault>
    ensures accounts { IfOk result (λ it. AreAccountsOf lives.now it.lives.items) }
    ensures books { IfOk result (λ it. is_some it.books ≡ ends_whole lives.now) }
    ensures cause { IfErr result IsFirstFault }
{
    let rehearsed = live_behind(alloc, behind, lives)?;
    account_of(alloc, rehearsed, lives)
}
