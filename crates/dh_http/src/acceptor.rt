//! Taking connections.

ghost use Rattle.std.specs.Prelude.{◌≡◌, ◌≢◌, List, [], ◌∷◌, Option, None, Result, IfErr, IfSome};
ghost use Rattle.std.specs.IoError.{error_kind, raw_os_error};
ghost use Rattle.std.specs.declared.io.Error.{Error};
ghost use Rattle.dh_agency.specs.Faults.{IsFirstFault};
ghost use Rattle.dh_http.specs.Calls.{Makes};
ghost use Rattle.dh_http.specs.Accepting.{HasTried, accepted, fault_of, fault_of_code};

use dh_types::Fault;
use std::io;
use std::io::ErrorKind;
use std::net::{SocketAddr, TcpListener, TcpStream};

// Linux's numbers of the errors that accept(2) says are of the connection: it was aborted, or its network had failed.
const NO_NETWORK: u32 = 64;

const PROTOCOL_ERROR: u32 = 71;

const NO_PROTOCOL_OPTION: u32 = 92;

const NOT_SUPPORTED: u32 = 95;

const NETWORK_DOWN: u32 = 100;

const NETWORK_UNREACHABLE: u32 = 101;

const CONNECTION_ABORTED: u32 = 103;

const HOST_DOWN: u32 = 112;

const HOST_UNREACHABLE: u32 = 113;

// And those of want of memory.
const NO_MEMORY: u32 = 12;

const NO_BUFFERS: u32 = 105;

// The fault that is told of an error with this number. None where the error is of the connection.
fn fault_of_code(code: u32) -> Option<Fault>
    ensures value { result ≡ fault_of_code code }
    ensures first { IfSome result (λ fault. IsFirstFault fault) }
{
    match code {
        NO_NETWORK
        | PROTOCOL_ERROR
        | NO_PROTOCOL_OPTION
        | NOT_SUPPORTED
        | NETWORK_DOWN
        | NETWORK_UNREACHABLE
        | CONNECTION_ABORTED
        | HOST_DOWN
        | HOST_UNREACHABLE => None,
        NO_MEMORY | NO_BUFFERS => Some(Fault::Memory),
        _ => Some(Fault::Store),
    }
}

// The fault that is told of an error. None where the error is of the connection.
fn fault_of(error: &io::Error) -> Option<Fault>
    ensures value { result ≡ fault_of (raw_os_error error.now) }
    ensures first { IfSome result (λ fault. IsFirstFault fault) }
{
    match error.raw_os_error() {
        Some(code) => fault_of_code(code.unsigned_abs()),
        None => Some(Fault::Store),
    }
}

/// What came of a call for the next connection. None where it was lost.
pub(crate) fn accepted<T>(outcome: io::Result<T>) -> Result<Option<T>, Fault>
    ensures value { result ≡ accepted outcome }
    ensures first { IfErr result (λ fault. IsFirstFault fault) }
{
    match outcome {
        Ok(it) => Ok(Some(it)),
        Err(error) => match fault_of(&error) {
            None => Ok(None),
            Some(fault) => Err(fault),
        },
    }
}

/// Where connections come from, one after the other.
pub trait Door {
    /// A connection.
    type Caller;

    // What each try so far gave, where that is known.
    ghost tries: { Self → Option (List (Result Self.Caller Error)) } = { λ _. None };

    /// One try for the next connection. A signal may interrupt it.
    fn try_next(&mut self) -> io::Result<Self::Caller>
        ensures { Makes (tries self.old) (tries self.new) (result ∷ []) };
}

impl Door for TcpListener {
    type Caller = (TcpStream, SocketAddr);

    fn try_next(&mut self) -> io::Result<(TcpStream, SocketAddr)> {
        self.accept()
    }
}

/// The next connection. A try that a signal interrupts is made again, and no error has that kind: where the door is interrupted without end, the
/// kind is `Other`.
pub fn accept<D: Door>(door: &mut D) -> io::Result<D::Caller>
    ensures tried { (tries : List (Result D.Caller Error)) × Makes (D.tries door.old) (D.tries door.new) tries × HasTried tries result }
    ensures again { IfErr result (λ e. error_kind e ≢ ErrorKind.Interrupted) }
{
    for _turn in 0..u64::MAX {
        match door.try_next() {
            Ok(caller) => return Ok(caller),
            Err(error) => {
                if error.kind() != ErrorKind::Interrupted {
                    return Err(error);
                }
            }
        }
    }
    Err(ErrorKind::Other.into())
}
