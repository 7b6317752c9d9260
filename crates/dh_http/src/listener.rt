//! Listening at a port.

ghost use Rattle.std.specs.Prelude.{◌≡◌, ℕ, List, Option, None, Err, IfOk, IfSome, OnOk, false, true};
ghost use Rattle.std.specs.Net.Socket.{socket_port};
ghost use Rattle.dh_types.specs.Output.{Puts};
ghost use Rattle.dh_types.specs.declared.reply.Fault.{Fault};
ghost use Rattle.dh_types.specs.declared.reply.Fault.TheVariants as faults;
ghost use Rattle.dh_agency.specs.Faults.{IsFirstFault};
ghost use Rattle.dh_agency.specs.Agency.{WasClean};
ghost use Rattle.dh_http.specs.Printed.{PrintsServed, port_text};
ghost use Rattle.dh_http.specs.Service.{IsOfThisMachine, ServesOn};
ghost use Rattle.dh_http.specs.Watched.{IsWatched};
ghost use Rattle.dh_http.specs.declared.listener.Unserved.TheVariants as unserved;

use crate::connections::serve_connections;
use crate::patience::Patience;
use crate::watch::Watch;
use dh_agency::Agency;
use dh_requests::Routes;
use dh_types::text_writer::put_pieces;
use dh_types::{BatchCount, Fault, Output};
use itoa::Buffer;
use sqlite::Alter;
use std::alloc::AllocError;
use std::io;
use std::io::Write;
use std::net::{IpAddr, Ipv4Addr, Net, SocketAddr, TcpListener, TcpStream};
use std::time::Clock;

/// The port of 127.0.0.1 where requests are listened for, on how many connections they are served, and how long their peers are waited for. With
/// port 0 the system picks one.
#[derive(Clone, Copy)]
pub struct Service {
    pub port: u16,
    pub count: BatchCount,
    pub patience: Patience,
}

/// Why serving ended before its last connection.
#[derive(Clone, Copy, Debug, PartialEq, Eq)]
pub enum Unserved {
    /// There is no listener at that port.
    NoListener,
    /// The writer failed.
    Output(Output),
    /// The agency has stopped, behind an answer 503 or one that was lost.
    Stopped,
    /// No further connection can be taken: 21 where memory ran out, 22 where the system gives no further file or the listener failed. Or one
    /// came, and the agency's file is no longer where it was, which is 22 too. The agency goes on.
    Fault(Fault),
}

impl From<Output> for Unserved {
    ghost from_gives = { λ output e. e ≡ unserved.Output output };

    fn from(output: Output) -> Unserved {
        Unserved::Output(output)
    }
}

impl From<Fault> for Unserved {
    ghost from_gives = { λ fault e. e ≡ unserved.Fault fault };

    fn from(fault: Fault) -> Unserved {
        Unserved::Fault(fault)
    }
}

impl From<AllocError> for Unserved {
    ghost from_gives = { λ _ e. e ≡ unserved.Fault faults.Memory };

    fn from(_: AllocError) -> Unserved {
        Unserved::Fault(Fault::Memory)
    }
}

// This port of 127.0.0.1.
fn address_of(port: u16) -> SocketAddr
    ensures machine { IsOfThisMachine result }
    ensures port { socket_port result ≡ port }
{
    SocketAddr::new(IpAddr::V4(Ipv4Addr::new(127, 0, 0, 1)), port)
}

// What listens at a port.
trait Listening {
    // Its port, where that is known.
    ghost port: { Self → Option ℕ } = { λ _. None };

    // The port that it has.
    fn port(&self) -> io::Result<u16>
        ensures { IfOk result (λ it. IfSome (port self.now) (λ known. it ≡ known)) };
}

impl Listening for TcpListener {
    fn port(&self) -> io::Result<u16> {
        Ok(self.local_addr()?.port())
    }
}

// What listens, and the port that it has.
fn with_port<L: Listening + Drop>(listener: L) -> io::Result<(L, u16)>
    ensures same { IfOk result (λ it. it.0 ≡ listener) }
    ensures port { IfOk result (λ it. IfSome (L.port it.0) (λ known. it.1 ≡ known)) }
{
    let port = listener.port()?;
    Ok((listener, port))
}

// The listener at this port of 127.0.0.1, and the port that it has.
fn listen<R: Net<Listener = TcpListener, Stream = TcpStream>>(
    rt: &R,
    port: u16,
) -> io::Result<(TcpListener, u16)> {
    with_port(TcpListener::bind(rt, address_of(port))?)
}

// Prints the port that is listened at, where the system was to pick it.
fn print_port<W: Write>(writer: &mut W, asked: u16, port: u16) -> Result<(), Output>
    ensures { Puts (W.contents writer.old) (W.contents writer.new) result (port_text asked port) }
{
    if asked != 0 {
        return Ok(());
    }
    let mut digits = Buffer::new();
    put_pieces(writer, &[b"port ", digits.format(port).as_bytes(), b"\n"])
}

/// Listens at the service's port, answers its connections one after the other, and prints the status of each, or `lost`; before them
/// `port P` where the system picks the port. Its peers have the time of its patience. The agency's file is looked for before a request is read.
/// `NoListener` where the port can't be had, `Stopped` behind the connection at which the agency stopped, whether its answer was lost or not,
/// `Fault` where no further connection can be taken or the file is no longer where it was as one comes, `Output` where the writer failed.
pub fn serve<
    S: Alter,
    R: Net<Listener = TcpListener, Stream = TcpStream> + Clock + AllocGlobal,
    F: Watch,
    W: Write,
>(
    rt: &R,
    agency: &mut Agency<S>,
    file: &mut F,
    service: Service,
    writer: &mut W,
) -> Result<(), Unserved>
    requires { agency.old.is_stopped ≡ false }
    ensures served { (outcomes : List (Option ℕ)) × ServesOn S.Store agency.old agency.new outcomes
        × PrintsServed service outcomes (W.contents writer.old) (W.contents writer.new) result
        × IsWatched (F.sightings file.old) (F.sightings file.new) outcomes result }
    ensures going { OnOk result (agency.new.is_stopped ≡ false) }
    ensures stopped { result ≡ Err unserved.Stopped → agency.new.is_stopped ≡ true }
    ensures fault { (fault : Fault) → result ≡ Err (unserved.Fault fault) → (agency.new.is_stopped ≡ false) × IsFirstFault fault }
    ensures was_clean { WasClean S.Store agency.old agency.new }
{
    let Ok((mut listener, port)) = listen(rt, service.port) else {
        return Err(Unserved::NoListener);
    };
    print_port(writer, service.port, port)?;
    let count = service.count.number();
    let routes = Routes::new(rt.alloc())?;
    serve_connections(
        rt,
        &routes,
        agency,
        file,
        &mut listener,
        count,
        service.patience,
        writer,
    )
}
