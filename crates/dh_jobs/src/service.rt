//! Serving requests over the tables of a file.

ghost use Rattle.std.specs.Prelude.{◌⊎◌, ℕ, List, Option};
ghost use Rattle.sqlite.specs.State.{HasCleanDisk};
ghost use Rattle.sqlite.specs.Held.{state};
ghost use Rattle.dh_agency.specs.Taking.{IsResting};
ghost use Rattle.dh_jobs.specs.Ends.{ServingEnds};
ghost use Rattle.dh_jobs.specs.Leaving.{IsKept, ServingLeaves};
ghost use Rattle.dh_jobs.specs.Printed.{EndsServing, IsRefusedEnd, Prints, PrintsService};

use crate::messages::{end_by_fault, end_by_problem, end_without_listener};
use crate::paths::Opened;
use crate::status::{Failure, Status};
use dh_agency::{NotOpened, attach};
use dh_http::{Service, Unserved, Watch, serve};
use sqlite::{Alter, Connection};
use std::fs::Files;
use std::io::Write;
use std::net::{Net, TcpListener, TcpStream};
use std::time::Clock;

// How the program ends behind serving. A want of a listener, and a fault of it, are told.
fn end_serving<W: Write>(outcome: Result<(), Unserved>, writer: &mut W) -> Status
    ensures { EndsServing outcome (W.contents writer.old) (W.contents writer.new) result }
{
    match outcome {
        Ok(()) => Status::Done,
        Err(Unserved::NoListener) => end_without_listener(writer),
        Err(Unserved::Output(output)) => Status::Failed(Failure::Output(output)),
        Err(Unserved::Stopped) => Status::Failed(Failure::Stopped),
        Err(Unserved::Fault(fault)) => end_by_fault(writer, fault),
    }
}

// An open file, which is looked for at its path.
#[derive_where(Clone, Copy)]
struct OnDisk<'a, R: Files> {
    rt: &'a R,
    file: Opened<'a>,
}

impl<R: Files> Watch for OnDisk<'_, R> {
    fn is_there(&mut self) -> bool {
        self.file.is_there(self.rt)
    }
}

/// Takes the tables as they are, and serves requests over them. The file is looked for before a request is read.
pub(crate) fn answer_requests<
    S: Alter,
    H: Files + Net<Listener = TcpListener, Stream = TcpStream> + Clock + AllocGlobal,
    W: Write,
>(
    rt: &H,
    conn: Connection<S>,
    file: &Opened,
    service: Service,
    writer: &mut W,
) -> (Status, Connection<S>)
    requires { HasCleanDisk (state S.Store conn) → IsResting (state S.Store conn) }
    ensures printed { ((outcomes : List (Option ℕ)) × PrintsService service outcomes (W.contents writer.old) (W.contents writer.new) result.0)
        ⊎ Prints IsRefusedEnd (W.contents writer.old) (W.contents writer.new) result.0 }
    ensures ends { HasCleanDisk (state S.Store result.1)
        → ServingEnds (state S.Store conn) (state S.Store result.1) (W.contents writer.old) (W.contents writer.new) service result.0 }
    ensures crash { ServingLeaves (state S.Store conn) (state S.Store result.1) }
    ensures kept { IsKept (state S.Store result.1) result.0 }
    ensures was_clean { HasCleanDisk (state S.Store result.1) → HasCleanDisk (state S.Store conn) }
{
    match attach(rt.alloc(), conn) {
        Ok(mut agency) => {
            let mut on_disk = OnDisk { rt, file: *file };
            let outcome = serve(rt, &mut agency, &mut on_disk, service, writer);
            let status = end_serving(outcome, writer);
            (status, agency.into_store())
        }
        Err(NotOpened { cause, conn }) => (end_by_problem(writer, cause), conn),
    }
}
