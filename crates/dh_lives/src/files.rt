//! Files on disks in memory: they are opened for one piece of work, and closed unless it was interrupted.

ghost use Rattle.std.specs.Prelude.{◌≡◌, None, IsTrue, IsSome, IfSome, IfOk};
ghost use Rattle.sqlite.specs.Files.{file_state};
ghost use Rattle.sqlite.specs.State.{HasCleanDisk};
ghost use Rattle.dh_schema.specs.Faults.{IsFirstFault};
ghost use Rattle.dh_runs.specs.Taking.{IsResting};
ghost use Rattle.dh_lives.specs.Causes.{IsFirstCause};
ghost use Rattle.dh_lives.specs.Lives.{FitsCommands, IsWhole};

use crate::cause::Cause;
use crate::work::{Done, create_over, live_over, load_over};
use dh_schema::fault_of;
use dh_types::{Command, EntryMonth, Fault};
use sqlite::{Connection, Error, FileStore, Files, Options};
use sqlite_disk::Disk;
use std::alloc::Global;

/// The random number that logs begin with, the same each time.
pub const SEED: u64 = 7;

// More than the pages of such files, which are some forty. Room for the usual 2,000 takes longer to make than a life to play.
const PAGES: usize = 128;

/// How files are opened on which an agency lives.
pub fn options() -> Options {
    Options {
        cache_pages: PAGES,
        ..Options::new(SEED)
    }
}

/// Why files are not opened.
#[derive(Clone, Copy, Debug, PartialEq, Eq)]
pub enum Unopened {
    /// A disk had failed before in such a way that nothing may be asked of it.
    NotUsable,
    /// The store did not open them.
    Error(Error),
}

impl Unopened {
    // The fault of a life that does not get its files opened.
    fn fault(self) -> Fault
        ensures { IsFirstFault result }
    {
        match self {
            Unopened::NotUsable => Fault::Store,
            Unopened::Error(error) => fault_of(error),
        }
    }
}

// Opens files that may be used.
fn opened<D: Disk + Drop>(
    alloc: Global,
    files: Files<D>,
    options: Options,
) -> Result<Connection<FileStore<D>>, (Unopened, Files<D>)>
    requires log { IsTrue (D.Disk.is_usable files.log) }
    requires db { IsTrue (D.Disk.is_usable files.db) }
    ensures { IfOk result (λ conn. HasCleanDisk (file_state conn) → IsResting (file_state conn)) }
{
    match Connection::open_files(alloc, files, options) {
        Ok(conn) => Ok(conn),
        Err((error, left)) => Err((Unopened::Error(error), left.into_files())),
    }
}

/// Opens the files; where that fails they are given back. Nothing is asked of files that may not be used.
pub fn open_on<D: Disk + Drop>(
    alloc: Global,
    files: Files<D>,
    options: Options,
) -> Result<Connection<FileStore<D>>, (Unopened, Files<D>)>
    ensures { IfOk result (λ conn. HasCleanDisk (file_state conn) → IsResting (file_state conn)) }
{
    if files.may_be_used() {
        return opened(alloc, files, options);
    }
    Err((Unopened::NotUsable, files))
}

// Closes the files. The cause is that of a closing that failed.
fn closed<D: Disk + Drop>(conn: Connection<FileStore<D>>) -> (Option<Cause>, Files<D>)
    ensures { IfSome result.0 IsFirstCause }
{
    match conn.close_files() {
        Ok(files) => (None, files),
        Err((error, store)) => (Some(Cause::Fault(fault_of(error))), store.close()),
    }
}

// Closes the files of work that nothing cut, and leaves those of work that was interrupted as they are.
fn close_work<D: Disk + Drop>(mut done: Done, conn: Connection<FileStore<D>>) -> (Done, Files<D>)
    requires { IfSome done.cause IsFirstCause }
    ensures lived { result.0.lived ≡ done.lived }
    ensures books { result.0.books ≡ done.books }
    ensures uncut { result.0.cause ≡ None → done.cause ≡ None }
    ensures cause { IfSome result.0.cause IsFirstCause }
{
    if done.cause.is_some() {
        return (done, conn.into_store().close());
    }
    let (cause, left) = closed(conn);
    done.cause = cause;
    (done, left)
}

/// Makes an agency on the files, whose books begin with the month.
pub(crate) fn create_on<D: Disk + Drop>(
    alloc: Global,
    files: Files<D>,
    first: EntryMonth,
) -> (Done, Files<D>)
    ensures { IfSome result.0.cause IsFirstCause }
{
    match open_on(alloc, files, options()) {
        Ok(conn) => {
            let (done, conn) = create_over(alloc, conn, first);
            close_work(done, conn)
        }
        Err((why, left)) => (Done::nothing(alloc, Cause::Fault(why.fault())), left),
    }
}

/// Recovers the files, and tells an agency on them the commands.
pub(crate) fn live_on<D: Disk + Drop>(
    alloc: Global,
    files: Files<D>,
    commands: &[Command],
) -> (Done, Files<D>)
    ensures fits { FitsCommands commands.now result.0.lived }
    ensures whole { result.0.cause ≡ None → IsWhole result.0.lived }
    ensures cause { IfSome result.0.cause IsFirstCause }
{
    match open_on(alloc, files, options()) {
        Ok(conn) => {
            let (done, conn) = live_over(alloc, conn, commands);
            close_work(done, conn)
        }
        Err((why, left)) => (Done::nothing(alloc, Cause::Fault(why.fault())), left),
    }
}

/// Loads the tables of the files.
pub(crate) fn load_on<D: Disk + Drop>(alloc: Global, files: Files<D>) -> (Done, Files<D>)
    ensures loaded { result.0.cause ≡ None → IsSome result.0.books }
    ensures cause { IfSome result.0.cause IsFirstCause }
{
    match open_on(alloc, files, options()) {
        Ok(mut conn) => {
            let done = load_over(alloc, &mut conn);
            close_work(done, conn)
        }
        Err((why, left)) => (Done::nothing(alloc, Cause::Fault(why.fault())), left),
    }
}
