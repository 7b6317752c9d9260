//! Serving connections, one after the other.

ghost use Rattle.std.specs.Prelude.{◌≡◌, ◌*◌, ℕ, Bool, List, [], ◌∷◌, Option, false, true, Err, IfErr, IfOk, IfSome, IsOk, MatchOption, MatchResult};
ghost use Rattle.std.specs.Prelude.{OnErr, OnOk};
ghost use Rattle.dh_types.specs.Output.{Puts};
ghost use Rattle.dh_types.specs.declared.reply.Fault.{Fault};
ghost use Rattle.dh_types.specs.declared.reply.Fault.TheVariants.{Store};
ghost use Rattle.dh_agency.specs.Faults.{IsFirstFault};
ghost use Rattle.dh_agency.specs.Agency.{IsClean, LeavesItsTables, WasClean};
ghost use Rattle.dh_requests.specs.Requests.{ConsumesRequest, MayAsk};
ghost use Rattle.dh_http.specs.Calls.{Call, EndsAnswered, Makes, nanos};
ghost use Rattle.dh_http.specs.Printed.{PrintsBehind, outcome_line};
ghost use Rattle.dh_http.specs.Served.{LeavesServed};
ghost use Rattle.dh_http.specs.Service.{IsOutcome, ServesOn, StopsWith};
ghost use Rattle.dh_http.specs.Accepting.{accepted};
ghost use Rattle.dh_http.specs.Watched.{IsWatched};

use crate::acceptor::{accept, accepted};
use crate::exchange::serve_over;
use crate::listener::Unserved;
use crate::patience::Patience;
use crate::peers::{Peer, SocketPeer};
use crate::streams::{TimedStream, end_answered};
use crate::watch::Watch;
use dh_agency::Agency;
use dh_requests::Routes;
use dh_types::text_writer::{put, put_pieces};
use dh_types::{Fault, Output};
use http::StatusCode;
use sqlite::Alter;
use std::alloc::Global;
use std::io;
use std::io::Write;
use std::net::{SocketAddr, TcpListener, TcpStream};
use std::time::Clock;

/// Answers a peer through two streams, which have the time of its patience: the status, if it was answered, and the peer behind it. Where it was
/// answered the stream ends as such.
pub fn serve_peer<S: Alter, P: Peer>(
    alloc: Global,
    routes: &Routes,
    agency: &mut Agency<S>,
    reader: &mut TimedStream<P>,
    writer: &mut TimedStream<P>,
    peer: P,
    patience: Patience,
) -> (Option<StatusCode>, P)
    requires request { reader.old.seconds ≡ patience.request_seconds }
    requires answer { writer.old.seconds ≡ patience.answer_seconds }
    ensures on { ServesOn S.Store agency.old agency.new (result.0 ∷ []) }
    ensures outcome { IsOutcome S.Store agency.old agency.new (P.remaining reader.old.peer) (P.contents writer.old.peer) (P.contents writer.new.peer) result.0 }
    ensures consumed { ConsumesRequest (P.remaining reader.old.peer) (P.remaining reader.new.peer) }
    ensures crash { IsClean S.Store agency.new → agency.old.is_stopped ≡ false → LeavesItsTables S.Store agency.old
        → LeavesServed S.Store agency.old agency.new (λ asked. IfSome (P.remaining reader.old.peer) (λ input. MayAsk input asked)) }
    ensures left { IsClean S.Store agency.new → LeavesItsTables S.Store agency.old → agency.new.is_stopped ≡ false → LeavesItsTables S.Store agency.new }
    ensures stops { StopsWith agency.old agency.new result.0 }
    ensures stopped { agency.old.is_stopped ≡ true → agency.new ≡ agency.old }
    ensures ended { MatchOption result.0 (P.calls result.1 ≡ P.calls peer) (λ _. (calls : List Call) × Makes (P.calls peer) (P.calls result.1) calls
        × EndsAnswered (nanos patience.rest_seconds) patience.rest_bytes calls) }
    ensures was_clean { WasClean S.Store agency.old agency.new }
{
    match serve_over(alloc, routes, agency, reader, writer) {
        Ok(status) => (Some(status), end_answered(peer, patience)),
        Err(_) => (None, peer),
    }
}

// Answers what came of a call for the next connection: the status, if it was answered. A fault where no further connection can be taken.
fn serve_accepted<S: Alter, R: Clock + AllocGlobal>(
    rt: &R,
    routes: &Routes,
    agency: &mut Agency<S>,
    outcome: io::Result<(TcpStream, SocketAddr)>,
    patience: Patience,
) -> Result<Option<StatusCode>, Fault>
    ensures outcome { MatchResult (accepted outcome) (λ _. IsOk result) (λ fault. result ≡ Err fault) }
    ensures on { IfOk result (λ outcome. ServesOn S.Store agency.old agency.new (outcome ∷ [])) }
    ensures stops { IfOk result (λ outcome. StopsWith agency.old agency.new outcome) }
    ensures same { OnErr result (agency.new ≡ agency.old) }
    ensures cause { IfErr result (λ fault. IsFirstFault fault) }
    ensures was_clean { WasClean S.Store agency.old agency.new }
{
    match accepted(outcome) {
        Ok(Some((stream, _))) => {
            let peer = SocketPeer::new(rt, &stream);
            let mut reader = TimedStream::of_request(peer, patience);
            let mut writer = TimedStream::of_answer(peer, patience);
            let (answered, _) = serve_peer(
                rt.alloc(),
                routes,
                agency,
                &mut reader,
                &mut writer,
                peer,
                patience,
            );
            Ok(answered)
        }
        Ok(None) => Ok(None),
        Err(fault) => Err(fault),
    }
}

// Answers the next connection: the status, if it was answered. A fault where no further connection can be taken, or where the agency's file is no
// longer where it was as one comes: nothing is read of it then.
fn serve_next<S: Alter, R: Clock + AllocGlobal, F: Watch>(
    rt: &R,
    routes: &Routes,
    agency: &mut Agency<S>,
    file: &mut F,
    listener: &mut TcpListener,
    patience: Patience,
) -> Result<Option<StatusCode>, Fault>
    ensures seen { IfOk result (λ _. Makes (F.sightings file.old) (F.sightings file.new) (true ∷ [])) }
    ensures missed { IfErr result (λ fault. (seen : Bool) × Makes (F.sightings file.old) (F.sightings file.new) (seen ∷ []) × (seen ≡ false → fault ≡ Store)) }
    ensures on { IfOk result (λ outcome. ServesOn S.Store agency.old agency.new (outcome ∷ [])) }
    ensures stops { IfOk result (λ outcome. StopsWith agency.old agency.new outcome) }
    ensures same { OnErr result (agency.new ≡ agency.old) }
    ensures cause { IfErr result (λ fault. IsFirstFault fault) }
    ensures was_clean { WasClean S.Store agency.old agency.new }
{
    let outcome = accept(listener);
    if !file.is_there() {
        return Err(Fault::Store);
    }
    serve_accepted(rt, routes, agency, outcome, patience)
}

// Prints the status of a connection, or that it was lost.
fn print_outcome<W: Write>(writer: &mut W, outcome: &Option<StatusCode>) -> Result<(), Output>
    ensures { Puts (W.contents writer.old) (W.contents writer.new) result (outcome_line outcome.now) }
{
    match outcome {
        Some(status) => put_pieces(writer, &[status.as_str().as_bytes(), b"\n"]),
        None => put(writer, b"lost\n"),
    }
}

/// Answers so many connections and prints the status of each, or `lost`. `Stopped` behind the one at which the agency stopped, whether its
/// answer was lost or not, `Fault` where no further connection can be taken or the file is no longer where it was as one comes, `Output` where the
/// writer failed.
pub(crate) fn serve_connections<S: Alter, R: Clock + AllocGlobal, F: Watch, W: Write>(
    rt: &R,
    routes: &Routes,
    agency: &mut Agency<S>,
    file: &mut F,
    listener: &mut TcpListener,
    count: u32,
    patience: Patience,
    writer: &mut W,
) -> Result<(), Unserved>
    requires { agency.old.is_stopped ≡ false }
    ensures served { (outcomes : List (Option ℕ)) × ServesOn S.Store agency.old agency.new outcomes
        × PrintsBehind count [] outcomes (W.contents writer.old) (W.contents writer.new) result
        × IsWatched (F.sightings file.old) (F.sightings file.new) outcomes result }
    ensures going { OnOk result (agency.new.is_stopped ≡ false) }
    ensures stopped { result ≡ Err Unserved.Stopped → agency.new.is_stopped ≡ true }
    ensures fault { (fault : Fault) → result ≡ Err (Unserved.Fault fault) → (agency.new.is_stopped ≡ false) × IsFirstFault fault }
    ensures was_clean { WasClean S.Store agency.old agency.new }
{
    for _served in 0..count {
        let outcome = serve_next(rt, routes, agency, file, listener, patience)?;
        print_outcome(writer, &outcome)?;
        if agency.is_stopped() {
            return Err(Unserved::Stopped);
        }
    }
    Ok(())
}
