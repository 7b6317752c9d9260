//! A peer's stream and the clock, by the calls that are made of them.

ghost use Rattle.std.specs.Prelude.{ℕ, List, [], ◌∷◌, Option, None};
ghost use Rattle.std.specs.Duration.{as_nanos};
ghost use Rattle.std.specs.Io.{ReadsAtMost, WritesAtMost};
ghost use Rattle.std.specs.Io.KnownBytes.{Keeps, ReadConsumes, WriteAppends};
ghost use Rattle.dh_http.specs.Calls.{AsksTime, Call, EndsOutput, Makes, Reads, Writes};

use std::io;
use std::io::{Read, Write};
use std::net::{Shutdown, TcpStream};
use std::time::{Clock, Duration, Instant};

/// A peer's stream, and the clock.
pub trait Peer {
    // The calls that were made, in order, where they are known.
    ghost calls: { Self → Option (List Call) } = { λ _. None };

    // The bytes that it will still send, where they are known.
    ghost remaining: { Self → Option (List ℕ) } = { λ _. None };

    // The bytes that were sent to it, where they are known.
    ghost contents: { Self → Option (List ℕ) } = { λ _. None };

    /// What time it is.
    fn time(&mut self) -> io::Result<Instant>
        ensures unread { Keeps (remaining self.old) (remaining self.new) }
        ensures unsent { Keeps (contents self.old) (contents self.new) }
        ensures made { Makes (calls self.old) (calls self.new) (AsksTime result ∷ []) };

    /// Reads some bytes; it waits for so long at most.
    fn read_within(&mut self, limit: Duration, buf: &mut [u8]) -> io::Result<usize>
        ensures bound { ReadsAtMost result buf.new }
        ensures bytes { ReadConsumes (remaining self.old) (remaining self.new) result buf.new }
        ensures made { Makes (calls self.old) (calls self.new) (Reads (as_nanos limit) result ∷ []) };

    /// Writes some bytes; it waits for so long at most.
    fn write_within(&mut self, limit: Duration, buf: &[u8]) -> io::Result<usize>
        ensures bound { WritesAtMost result buf.now }
        ensures bytes { WriteAppends (contents self.old) (contents self.new) result buf.now }
        ensures made { Makes (calls self.old) (calls self.new) (Writes (as_nanos limit) result ∷ []) };

    /// Ends the output. The input stays open.
    fn end_output(&mut self) -> io::Result<()>
        ensures { Makes (calls self.old) (calls self.new) (EndsOutput result ∷ []) };
}

// This stream, whose reads wait for so long at most.
fn reading_within(stream: &TcpStream, limit: Duration) -> io::Result<&TcpStream> {
    stream.set_read_timeout(Some(limit))?;
    Ok(stream)
}

// This stream, whose writes wait for so long at most.
fn writing_within(stream: &TcpStream, limit: Duration) -> io::Result<&TcpStream> {
    stream.set_write_timeout(Some(limit))?;
    Ok(stream)
}

/// A peer of this machine.
#[derive_where(Clone, Copy)]
pub(crate) struct SocketPeer<'a, R: Clock> {
    rt: &'a R,
    stream: &'a TcpStream,
}

impl<'a, R: Clock> SocketPeer<'a, R> {
    pub(crate) fn new(rt: &'a R, stream: &'a TcpStream) -> SocketPeer<'a, R> {
        SocketPeer { rt, stream }
    }
}

impl<R: Clock> Peer for SocketPeer<'_, R> {
    fn time(&mut self) -> io::Result<Instant> {
        Instant::now(self.rt)
    }

    fn read_within(&mut self, limit: Duration, buf: &mut [u8]) -> io::Result<usize> {
        reading_within(self.stream, limit)?.read(buf)
    }

    fn write_within(&mut self, limit: Duration, buf: &[u8]) -> io::Result<usize> {
        writing_within(self.stream, limit)?.write(buf)
    }

    fn end_output(&mut self) -> io::Result<()> {
        self.stream.shutdown(Shutdown::Write)
    }
}
