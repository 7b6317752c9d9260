//! Jobs on files and in memory: a store is opened for one job, and closed.

ghost use Rattle.std.specs.Prelude.{◌≡◌, ◌↔◌, ℕ, [], IfErr, IfOk, IfSome, IsTrue};
ghost use Rattle.sqlite_wal.specs.Files.{image_at};
ghost use Rattle.sqlite.specs.Files.{file_state};
ghost use Rattle.sqlite.specs.State.{HasCleanDisk};
ghost use Rattle.sqlite.specs.declared.error.Error.TheVariants.{SqliteFailure};
ghost use Rattle.sqlite.specs.declared.error.ErrorCode.TheVariants.{DatabaseBusy};
ghost use Rattle.dh_agency.specs.Taking.{IsResting};
ghost use Rattle.dh_agency.specs.Faults.{IsFirstFault};
ghost use Rattle.dh_jobs.specs.Ends.{MemoryLinesEnd};
ghost use Rattle.dh_jobs.specs.OnFile.{ClosesTo, DoneOnFile, EndsOnFile, IsLeftOf, IsOpenedOn, IsUnopenedOn, MadeOnFile, MakesOnFile};
ghost use Rattle.dh_jobs.specs.Printed.{Closes, EndsByFault, IsMakingEnd, IsOfLines, Prints, PrintsJob};
ghost use Rattle.dh_jobs.specs.Statuses.{IsFailed};

use crate::blank::Blank;
use crate::messages::{end_by_fault, print_created, status_if_written};
use crate::paths::{Found, NewFile, Opened, remove_blank};
use crate::remains::Remains;
use crate::status::Status;
use crate::store_jobs::{FileJob, begin, do_job, make};
use dh_agency::{NotOpened, fault_of};
use dh_types::{EntryMonth, Fault};
use sqlite::{Connection, Error, ErrorCode, FileFrom, FileStore, Leftover, Start};
use sqlite_disk::{Disk, Files};
use std::alloc::Global;
use std::fs;
use std::io::{Read, Write};
use std::net::{Net, TcpListener, TcpStream};
use std::time::Clock;

// Whether another has the file open.
fn is_busy(error: &Error) -> bool
    ensures { IsTrue result ↔ (error.now ≡ SqliteFailure DatabaseBusy) }
{
    matches!(error, Error::SqliteFailure(ErrorCode::DatabaseBusy))
}

// Opens the files at this path, and makes them where there are none.
fn open_at<S: Start>(
    rt: &HostRuntime,
    start: S,
    path: &str,
) -> Result<Connection<FileStore<FileFrom<S>>>, (Error, Option<Leftover<FileFrom<S>>>)>
    ensures opened { IfOk result (IsOpenedOn (image_at S.Start)) }
    ensures left { IfErr result (λ e. IfSome e.1 (IsUnopenedOn (image_at S.Start) e.0)) }
{
    Connection::open_from(rt, path, false, start)
}

// Opens the file that was found. The path has to name it still: an opening makes a file where there is none, which is taken back.
fn open_found<'a, S: Start>(
    rt: &HostRuntime,
    start: S,
    found: &Found<'a>,
) -> Result<(Connection<FileStore<FileFrom<S>>>, Opened<'a>), (Fault, Remains<FileFrom<S>>)>
    ensures opened { IfOk result (λ it. IsOpenedOn (image_at S.Start) it.0) }
    ensures left { IfErr result (λ e. IsLeftOf (image_at S.Start) e.1) }
    ensures cause { IfErr result (λ e. IsFirstFault e.0) }
{
    match open_at(rt, start, found.path()) {
        Ok(conn) => {
            let blank = Blank::of(&conn);
            if let Some(opened) = found.opened(rt, blank.is_some()) {
                return Ok((conn, opened));
            }
            if let Some(blank) = blank {
                // Fault 22 is told whether it went or not.
                let _ = remove_blank(rt, found.path(), blank);
            }
            Err((Fault::Store, Remains::Astray(conn)))
        }
        Err((error, left)) => Err((fault_of(error), Remains::Unopened(left))),
    }
}

// Opens the file at a place of new tables. It has to be blank, and the path to name it still.
fn open_new<S: Start>(
    rt: &HostRuntime,
    start: S,
    new_file: &NewFile,
) -> Result<Connection<FileStore<FileFrom<S>>>, (Fault, Remains<FileFrom<S>>)>
    ensures opened { IfOk result (IsOpenedOn (image_at S.Start)) }
    ensures left { IfErr result (λ e. IsLeftOf (image_at S.Start) e.1) }
    ensures cause { IfErr result (λ e. IsFirstFault e.0) }
{
    match open_at(rt, start, new_file.path()) {
        Ok(conn) => {
            let Some(blank) = Blank::of(&conn) else {
                return Err((Fault::Store, Remains::Astray(conn)));
            };
            if new_file.is_there(rt) {
                return Ok(conn);
            }
            // Fault 22 is told whether they went or not.
            let _ = new_file.clear(rt);
            let _ = remove_blank(rt, new_file.path(), blank);
            Err((Fault::Store, Remains::Astray(conn)))
        }
        Err((error, left)) => {
            let is_anothers = is_busy(&error);
            let cause = fault_of(error);
            let fault = if is_anothers {
                cause
            } else {
                new_file.leave(rt, cause)
            };
            Err((fault, Remains::Unopened(left)))
        }
    }
}

// Closes the store and gives its files; or the store, where that fails, and the fault that it is.
fn close<D: Disk + Drop>(conn: Connection<FileStore<D>>) -> Result<Files<D>, (Fault, FileStore<D>)>
    ensures { ClosesTo conn result }
{
    match conn.close_files() {
        Ok(files) => Ok(files),
        Err((error, store)) => Err((fault_of(error), store)),
    }
}

// The status behind a closing that failed for this. It is told, where nothing had failed before.
fn end_unclosed<W: Write>(cause: Fault, status: Status, writer: &mut W) -> Status
    requires { IsFirstFault cause }
    ensures closes { Closes (W.contents writer.old) (W.contents writer.new) status result }
    ensures failed { IsFailed result }
    ensures printed { ¬ IsFailed status → EndsByFault cause (W.contents writer.old) (W.contents writer.new) [] result }
{
    if status.is_failed() {
        return status;
    }
    end_by_fault(writer, cause)
}

// Does the job over the store of a file, and closes it whatever came of the job, so that the file has all that was committed. The path has to
// name the file still.
fn do_and_close<
    D: Disk + Drop,
    H: fs::Files + Net<Listener = TcpListener, Stream = TcpStream> + Clock + AllocGlobal,
    R: Read,
    W: Write,
>(
    rt: &H,
    conn: Connection<FileStore<D>>,
    file: &Opened,
    job: FileJob,
    reader: &mut R,
    writer: &mut W,
) -> (Status, Result<Files<D>, (Fault, FileStore<D>)>)
    requires { HasCleanDisk (file_state conn) → IsResting (file_state conn) }
    ensures printed { PrintsJob job (W.contents writer.old) (W.contents writer.new) result.0 }
    ensures ends { EndsOnFile conn job (R.remaining reader.old) (W.contents writer.old) (W.contents writer.new) result.0 result.1 }
{
    let (done, conn) = do_job(rt, conn, file, job, reader, writer);
    match close(conn) {
        Ok(files) => {
            if file.is_there(rt) {
                return (done, Ok(files));
            }
            (end_unclosed(Fault::Store, done, writer), Ok(files))
        }
        Err((fault, store)) => (end_unclosed(fault, done, writer), Err((fault, store))),
    }
}

/// Does the job on the file at this path. Fault 21 where an open or a look wants memory, and fault 22 where there is no file, nothing or
/// no database in it, or it can't be opened or closed, or the path names another file behind the job. The file is closed whatever came of
/// the job, so that it has all that was committed.
pub(crate) fn do_on_file<S: Start, R: Read, W: Write>(
    rt: &HostRuntime,
    start: S,
    path: &str,
    job: FileJob,
    reader: &mut R,
    writer: &mut W,
) -> Status
    ensures { DoneOnFile ⟦<FileFrom<S> as Disk>⟧ (image_at S.Start) job (R.remaining reader.old) (W.contents writer.old) (W.contents writer.new) result }
{
    let found = match Found::at(rt, path) {
        Ok(found) => found,
        Err(fault) => return end_by_fault(writer, fault),
    };
    match open_found(rt, start, &found) {
        Ok((conn, file)) => {
            let (status, closed) = do_and_close(rt, conn, &file, job, reader, writer);
            drop(closed);
            status
        }
        Err((fault, left)) => {
            drop(left);
            end_by_fault(writer, fault)
        }
    }
}

// Makes the tables of empty books in the store of a new file, closes it, and then tells that. Where they can't be made or closed, the place is
// left as it was found, or fault 22 is told.
fn make_and_close<D: Disk + Drop, H: fs::Files + AllocGlobal, W: Write>(
    rt: &H,
    conn: Connection<FileStore<D>>,
    new_file: &NewFile,
    first: EntryMonth,
    writer: &mut W,
) -> (Status, Option<Result<Files<D>, (Fault, FileStore<D>)>>)
    ensures printed { Prints (IsMakingEnd first) (W.contents writer.old) (W.contents writer.new) result.0 }
    ensures ends { MakesOnFile conn first (W.contents writer.old) (W.contents writer.new) result.0 result.1 }
{
    match make(rt.alloc(), conn, first) {
        Ok(conn) => match close(conn) {
            Ok(files) => {
                if new_file.is_there(rt) {
                    let status = status_if_written(print_created(writer, first), Status::Done);
                    return (status, Some(Ok(files)));
                }
                let fault = new_file.leave(rt, Fault::Store);
                (end_by_fault(writer, fault), Some(Ok(files)))
            }
            Err((cause, store)) => {
                let fault = new_file.leave(rt, cause);
                (end_by_fault(writer, fault), Some(Err((cause, store))))
            }
        },
        Err(NotOpened { cause, conn }) => {
            let fault = new_file.leave(rt, cause);
            drop(conn);
            (end_by_fault(writer, fault), None)
        }
    }
}

/// Makes the file of an agency whose books begin with this month, where nothing is at the path, or an empty file, beside no log with news.
/// Fault 21 where memory runs out, and fault 22 where something else is there, another call has the file, or it can't be made or closed:
/// then what was found is left, and fault 22 comes also where that fails.
pub(crate) fn make_on_file<S: Start, W: Write>(
    rt: &HostRuntime,
    start: S,
    path: &str,
    first: EntryMonth,
    writer: &mut W,
) -> Status
    ensures { MadeOnFile ⟦<FileFrom<S> as Disk>⟧ (image_at S.Start) first (W.contents writer.old) (W.contents writer.new) result }
{
    let new_file = match NewFile::claim(rt, path) {
        Ok(new_file) => new_file,
        Err(fault) => return end_by_fault(writer, fault),
    };
    match open_new(rt, start, &new_file) {
        Ok(conn) => {
            let (status, closed) = make_and_close(rt, conn, &new_file, first, writer);
            drop(closed);
            status
        }
        Err((fault, left)) => {
            drop(left);
            end_by_fault(writer, fault)
        }
    }
}

/// Answers lines in memory, from the beginning with this month.
pub(crate) fn begin_in_memory<R: Read, W: Write>(
    alloc: Global,
    first: EntryMonth,
    reader: &mut R,
    writer: &mut W,
) -> Status
    ensures printed { IsOfLines result }
    ensures ends { MemoryLinesEnd (W.contents writer.old) (W.contents writer.new) first (R.remaining reader.old) result }
{
    let Ok(conn) = Connection::open_in_memory(alloc) else {
        return end_by_fault(writer, Fault::Memory);
    };
    let (status, conn) = begin(alloc, conn, first, reader, writer);
    drop(conn);
    status
}
