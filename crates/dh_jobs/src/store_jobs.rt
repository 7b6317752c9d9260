//! Jobs over a store: its tables are recovered, migrated, or taken and worked on, and the store is handed back.

ghost use Rattle.std.specs.Prelude.{◌≡◌, ◌≤◌, ◌↔◌, Err, IfErr, IfOk, IsTrue, pos};
ghost use Rattle.sqlite.specs.State.{HasCleanDisk};
ghost use Rattle.sqlite.specs.Held.{state};
ghost use Rattle.dh_types.specs.declared.reply.Fault.TheVariants as fault;
ghost use Rattle.dh_types.specs.declared.reply.Refusal.TheVariants as refusal;
ghost use Rattle.dh_types.specs.declared.version.Version.TheVariants.{First};
ghost use Rattle.dh_model.specs.Books.{start};
ghost use Rattle.dh_agency.specs.Faults.{IsFirstFault};
ghost use Rattle.dh_agency.specs.Store.{Commits, IsBlank};
ghost use Rattle.dh_agency.specs.Problem.TheVariants as problem;
ghost use Rattle.dh_agency.specs.Taking.{CanBeTaken, IsProblemOf, IsResting};
ghost use Rattle.dh_jobs.specs.Ends.{JobEnds, MigrationEnds, NewLinesEnd, RecoveryEnds, RecoveryEndsFor, TakingEnds};
ghost use Rattle.dh_jobs.specs.Leaving.{IsKept, JobLeaves};
ghost use Rattle.dh_jobs.specs.OnFile.{IsMade, IsUnmade};
ghost use Rattle.dh_jobs.specs.Printed.{IsOfLines, IsRecoveryEnd, IsRefusedEnd, Prints, PrintsJob, PrintsWork};

use crate::jobs::{Work, answer_lines, work_on};
use crate::messages::{
    end_by_fault, end_by_problem, print_migrated, print_recovered, status_if_written,
};
use crate::paths::Opened;
use crate::service::answer_requests;
use crate::status::Status;
use dh_agency::{NotOpened, Problem, attach, create, migrate, recover, recover_1};
use dh_http::Service;
use dh_types::{EntryMonth, Fault, Refusal};
use sqlite::{Alter, Connection};
use std::alloc::Global;
use std::fs::Files;
use std::io::{Read, Write};
use std::net::{Net, TcpListener, TcpStream};
use std::time::Clock;

/// What is done on a file.
#[derive(Drop)]
pub(crate) enum FileJob {
    /// Makes the open run to its end.
    Recover,
    /// Takes tables of the first version to the second.
    Migrate,
    /// Takes the tables, and works on them.
    Work(Work),
    /// Takes the tables, and serves requests over them.
    Serve(Service),
}

// Whether tables were turned away as those of the first version.
fn is_first(cause: &Problem) -> bool
    ensures { IsTrue result ↔ (cause.now ≡ problem.Refused (refusal.Version (pos 1))) }
{
    matches!(cause, Problem::Refused(Refusal::Version(1)))
}

// Makes the open run of tables of the first version to its end.
fn recover_first_file<S: Alter, W: Write>(
    alloc: Global,
    conn: Connection<S>,
    writer: &mut W,
) -> (Status, Connection<S>)
    requires { HasCleanDisk (state S.Store conn) → IsResting (state S.Store conn) }
    ensures printed { PrintsJob FileJob.Recover (W.contents writer.old) (W.contents writer.new) result.0 }
    ensures ends { HasCleanDisk (state S.Store result.1) → RecoveryEndsFor (CanBeTaken First) (IsProblemOf First (state S.Store conn).now.trees)
        (state S.Store conn) (state S.Store result.1) (W.contents writer.old) (W.contents writer.new) result.0 }
    ensures crash { JobLeaves (state S.Store conn) (state S.Store result.1) FileJob.Recover }
    ensures kept { IsKept (state S.Store result.1) result.0 }
    ensures was_clean { HasCleanDisk (state S.Store result.1) → HasCleanDisk (state S.Store conn) }
{
    match recover_1(alloc, conn) {
        Ok(conn) => (
            status_if_written(print_recovered(writer), Status::Done),
            conn,
        ),
        Err(NotOpened { cause, conn }) => (end_by_problem(writer, cause), conn),
    }
}

// Makes the open run to its end, whichever version the tables are of.
fn recover_file<S: Alter, W: Write>(
    alloc: Global,
    conn: Connection<S>,
    writer: &mut W,
) -> (Status, Connection<S>)
    requires { HasCleanDisk (state S.Store conn) → IsResting (state S.Store conn) }
    ensures printed { PrintsJob FileJob.Recover (W.contents writer.old) (W.contents writer.new) result.0 }
    ensures ends { HasCleanDisk (state S.Store result.1)
        → RecoveryEnds (state S.Store conn) (state S.Store result.1) (W.contents writer.old) (W.contents writer.new) result.0 }
    ensures crash { JobLeaves (state S.Store conn) (state S.Store result.1) FileJob.Recover }
    ensures kept { IsKept (state S.Store result.1) result.0 }
    ensures was_clean { HasCleanDisk (state S.Store result.1) → HasCleanDisk (state S.Store conn) }
{
    match recover(alloc, conn) {
        Ok(agency) => (
            status_if_written(print_recovered(writer), Status::Done),
            agency.into_store(),
        ),
        Err(NotOpened { cause, conn }) => {
            if is_first(&cause) {
                return recover_first_file(alloc, conn, writer);
            }
            (end_by_problem(writer, cause), conn)
        }
    }
}

// Takes tables of the first version to the second.
fn migrate_file<S: Alter, W: Write>(
    alloc: Global,
    conn: Connection<S>,
    writer: &mut W,
) -> (Status, Connection<S>)
    requires { HasCleanDisk (state S.Store conn) → IsResting (state S.Store conn) }
    ensures printed { PrintsJob FileJob.Migrate (W.contents writer.old) (W.contents writer.new) result.0 }
    ensures ends { HasCleanDisk (state S.Store result.1)
        → MigrationEnds (state S.Store conn) (state S.Store result.1) (W.contents writer.old) (W.contents writer.new) result.0 }
    ensures crash { JobLeaves (state S.Store conn) (state S.Store result.1) FileJob.Migrate }
    ensures kept { IsKept (state S.Store result.1) result.0 }
    ensures was_clean { HasCleanDisk (state S.Store result.1) → HasCleanDisk (state S.Store conn) }
{
    match migrate(alloc, conn) {
        Ok(agency) => (
            status_if_written(print_migrated(writer), Status::Done),
            agency.into_store(),
        ),
        Err(NotOpened { cause, conn }) => (end_by_problem(writer, cause), conn),
    }
}

// Takes the tables as they are, and works on them.
fn take<S: Alter, R: Read, W: Write>(
    alloc: Global,
    conn: Connection<S>,
    work: Work,
    reader: &mut R,
    writer: &mut W,
) -> (Status, Connection<S>)
    requires { HasCleanDisk (state S.Store conn) → IsResting (state S.Store conn) }
    ensures printed { PrintsJob (FileJob.Work work) (W.contents writer.old) (W.contents writer.new) result.0 }
    ensures ends { HasCleanDisk (state S.Store result.1)
        → TakingEnds (state S.Store conn) (state S.Store result.1) (W.contents writer.old) (W.contents writer.new) (R.remaining reader.old) work result.0 }
    ensures crash { JobLeaves (state S.Store conn) (state S.Store result.1) (FileJob.Work work) }
    ensures kept { IsKept (state S.Store result.1) result.0 }
    ensures was_clean { HasCleanDisk (state S.Store result.1) → HasCleanDisk (state S.Store conn) }
{
    match attach(alloc, conn) {
        Ok(mut agency) => {
            let status = work_on(alloc, &mut agency, work, reader, writer);
            (status, agency.into_store())
        }
        Err(NotOpened { cause, conn }) => (end_by_problem(writer, cause), conn),
    }
}

/// Makes the tables of empty books that begin with this month. Fault 21 where memory runs out, and fault 22 where the store fails or is not
/// blank.
pub(crate) fn make<S: Alter>(
    alloc: Global,
    conn: Connection<S>,
    first: EntryMonth,
) -> Result<Connection<S>, NotOpened<Fault, S>>
    ensures made { IfOk result (λ new. IsMade first (state S.Store new)) }
    ensures left { IfOk result (λ new. Commits (state S.Store conn) (state S.Store new) (λ t. t ≡ start first)) }
    ensures cause { IfErr result (λ e. IsFirstFault e.cause) }
    ensures occupied { ¬ IsBlank (state S.Store conn) → result ≡ Err (record { cause = fault.Store; conn = conn }) }
    ensures undone { IfErr result (λ e. IsUnmade (state S.Store conn) (state S.Store e.conn)) }
    ensures crash { IfErr result (λ e. Commits (state S.Store conn) (state S.Store e.conn) (λ t. t ≡ start first)) }
{
    let agency = create(alloc, conn, first.month())?;
    Ok(agency.into_store())
}

/// Answers lines from the beginning, over a store that has nothing yet.
pub(crate) fn begin<S: Alter, R: Read, W: Write>(
    alloc: Global,
    conn: Connection<S>,
    first: EntryMonth,
    reader: &mut R,
    writer: &mut W,
) -> (Status, Connection<S>)
    ensures printed { IsOfLines result.0 }
    ensures ends { HasCleanDisk (state S.Store result.1)
        → NewLinesEnd (state S.Store result.1) (W.contents writer.old) (W.contents writer.new) first (R.remaining reader.old) result.0 }
{
    match create(alloc, conn, first.month()) {
        Ok(mut agency) => {
            let status = answer_lines(alloc, &mut agency, reader, writer);
            (status, agency.into_store())
        }
        Err(NotOpened { cause, conn }) => (end_by_fault(writer, cause), conn),
    }
}

/// Does the job over the store of a file.
pub(crate) fn do_job<
    S: Alter,
    H: Files + Net<Listener = TcpListener, Stream = TcpStream> + Clock + AllocGlobal,
    R: Read,
    W: Write,
>(
    rt: &H,
    conn: Connection<S>,
    file: &Opened,
    job: FileJob,
    reader: &mut R,
    writer: &mut W,
) -> (Status, Connection<S>)
    requires { HasCleanDisk (state S.Store conn) → IsResting (state S.Store conn) }
    ensures printed { PrintsJob job (W.contents writer.old) (W.contents writer.new) result.0 }
    ensures ends { HasCleanDisk (state S.Store result.1)
        → JobEnds (state S.Store conn) (state S.Store result.1) (W.contents writer.old) (W.contents writer.new) (R.remaining reader.old) job result.0 }
    ensures crash { JobLeaves (state S.Store conn) (state S.Store result.1) job }
    ensures kept { IsKept (state S.Store result.1) result.0 }
    ensures was_clean { HasCleanDisk (state S.Store result.1) → HasCleanDisk (state S.Store conn) }
{
    match job {
        FileJob::Recover => recover_file(rt.alloc(), conn, writer),
        FileJob::Migrate => migrate_file(rt.alloc(), conn, writer),
        FileJob::Work(work) => take(rt.alloc(), conn, work, reader, writer),
        FileJob::Serve(service) => answer_requests(rt, conn, file, service, writer),
    }
}
