//! Serving one request.

ghost use Rattle.std.specs.Prelude.{◌≡◌, ◌≢◌, true, false, [], Err, IfSome};
ghost use Rattle.dh_agency.specs.Agency.{IsClean, LeavesItsTables, WasClean};
ghost use Rattle.dh_agency.specs.Requests.{is_order};
ghost use Rattle.dh_requests.specs.Requests.{ConsumesRequest, MayAsk};
ghost use Rattle.dh_http.specs.Served.{LeavesServed, Serves, StopsBy};

use crate::answers::{faulted, made, send, send_made, turned};
use crate::fault::NetFault;
use dh_agency::{Agency, respond};
use dh_requests::{JudgedRequest, Routes, read_request};
use dh_types::{Refusal, Request};
use http::StatusCode;
use sqlite::Alter;
use std::alloc::Global;
use std::io::{Read, Write};

// Whether fields order that something is done.
fn is_order(request: &Result<Request, Refusal>) -> bool
    ensures { result ≡ is_order request.now }
{
    matches!(request, Ok(Request::Command(_)))
}

// Does what is asked for, and answers it: the status of the answer.
fn answer<S: Alter, W: Write>(
    alloc: Global,
    agency: &mut Agency<S>,
    asked: JudgedRequest,
    writer: &mut W,
) -> Result<StatusCode, NetFault>
    ensures serves { IsClean S.Store agency.new
        → Serves S.Store agency.old agency.new (λ it. it ≡ asked) (W.contents writer.old) (W.contents writer.new) result }
    ensures crash { IsClean S.Store agency.new → agency.old.is_stopped ≡ false → LeavesItsTables S.Store agency.old
        → LeavesServed S.Store agency.old agency.new (λ it. it ≡ asked) }
    ensures left { IsClean S.Store agency.new → LeavesItsTables S.Store agency.old → agency.new.is_stopped ≡ false → LeavesItsTables S.Store agency.new }
    ensures open { result ≢ Err NetFault.Closed }
    ensures stops { StopsBy agency.old agency.new result }
    ensures stopped { agency.old.is_stopped ≡ true → agency.new ≡ agency.old }
    ensures was_clean { WasClean S.Store agency.old agency.new }
{
    match asked {
        JudgedRequest::Turned(why) => send(writer, &turned(why)),
        JudgedRequest::Fields(request) => {
            let acted = is_order(&request);
            match respond(alloc, agency, request) {
                Ok(response) => {
                    let made = made(alloc, &response);
                    drop(response);
                    send_made(writer, made, acted)
                }
                Err(fault) => send(writer, &faulted(fault)),
            }
        }
    }
}

/// Reads one request, whose route it looks up in these, does what it asks for, and writes its answer: the status of the answer. The
/// results are those of [`serve_one`].
pub(crate) fn serve_over<S: Alter, R: Read, W: Write>(
    alloc: Global,
    routes: &Routes,
    agency: &mut Agency<S>,
    reader: &mut R,
    writer: &mut W,
) -> Result<StatusCode, NetFault>
    ensures serves { IsClean S.Store agency.new → Serves S.Store agency.old agency.new
        (λ asked. IfSome (R.remaining reader.old) (λ input. MayAsk input asked)) (W.contents writer.old) (W.contents writer.new) result }
    ensures closed { result ≡ Err NetFault.Closed → IfSome (R.remaining reader.old) (λ input. input ≡ []) }
    ensures consumed { ConsumesRequest (R.remaining reader.old) (R.remaining reader.new) }
    ensures crash { IsClean S.Store agency.new → agency.old.is_stopped ≡ false → LeavesItsTables S.Store agency.old
        → LeavesServed S.Store agency.old agency.new (λ asked. IfSome (R.remaining reader.old) (λ input. MayAsk input asked)) }
    ensures left { IsClean S.Store agency.new → LeavesItsTables S.Store agency.old → agency.new.is_stopped ≡ false → LeavesItsTables S.Store agency.new }
    ensures stops { StopsBy agency.old agency.new result }
    ensures stopped { agency.old.is_stopped ≡ true → agency.new ≡ agency.old }
    ensures was_clean { WasClean S.Store agency.old agency.new }
{
    match read_request(alloc, routes, reader)? {
        Some(asked) => answer(alloc, agency, asked, writer),
        None => Err(NetFault::Closed),
    }
}

/// Reads one request, does what it asks for, and writes its answer: the status of the answer. The rules are those of
/// docs/MODEL.md, "From requests to answers". At `Closed` and `Input` nothing was done; at `Output` the writer has a beginning of
/// the answer, and what was asked for stands; at `Memory` nothing was written, and the command was carried out where `acted`.
/// With status 503 the agency has stopped.
pub fn serve_one<S: Alter, R: Read, W: Write>(
    alloc: Global,
    agency: &mut Agency<S>,
    reader: &mut R,
    writer: &mut W,
) -> Result<StatusCode, NetFault>
    ensures serves { IsClean S.Store agency.new → Serves S.Store agency.old agency.new
        (λ asked. IfSome (R.remaining reader.old) (λ input. MayAsk input asked)) (W.contents writer.old) (W.contents writer.new) result }
    ensures closed { result ≡ Err NetFault.Closed → IfSome (R.remaining reader.old) (λ input. input ≡ []) }
    ensures consumed { ConsumesRequest (R.remaining reader.old) (R.remaining reader.new) }
    ensures crash { IsClean S.Store agency.new → agency.old.is_stopped ≡ false → LeavesItsTables S.Store agency.old
        → LeavesServed S.Store agency.old agency.new (λ asked. IfSome (R.remaining reader.old) (λ input. MayAsk input asked)) }
    ensures left { IsClean S.Store agency.new → LeavesItsTables S.Store agency.old → agency.new.is_stopped ≡ false → LeavesItsTables S.Store agency.new }
    ensures stops { StopsBy agency.old agency.new result }
    ensures stopped { agency.old.is_stopped ≡ true → agency.new ≡ agency.old }
    ensures was_clean { WasClean S.Store agency.old agency.new }
{
    let routes = Routes::new(alloc)?;
    serve_over(alloc, &routes, agency, reader, writer)
}
