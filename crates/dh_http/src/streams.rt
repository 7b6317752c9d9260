//! Streams whose peer may be slow or gone.

ghost use Rattle.std.specs.Prelude.{◌≡◌, ◌*◌, ℕ, List, Option, None};
ghost use Rattle.std.specs.Io.{ReadsAtMost, WritesAtMost};
ghost use Rattle.std.specs.Io.KnownBytes.{Keeps, ReadConsumes, WriteAppends};
ghost use Rattle.dh_http.specs.Calls.{AsksLeft, Call, EndsAnswered, HasDrained, Makes, Reads, UsesInTime, Writes, nanos};

use crate::patience::Patience;
use crate::peers::Peer;
use std::io;
use std::io::{ErrorKind, Read, Write};
use std::time::{Duration, Instant};

/// A stream that is read, or written, for so many seconds in all, from the first call on. Each later call fails.
#[derive(Drop)]
pub struct TimedStream<P: Peer> {
    peer: P,
    seconds: u64,
    begun: Option<Instant>,
}

impl<P: Peer> TimedStream<P> {
    fn new(peer: P, seconds: u64) -> TimedStream<P>
        ensures peer { result.peer ≡ peer }
        ensures seconds { result.seconds ≡ seconds }
        ensures begun { result.begun ≡ None }
    {
        TimedStream {
            peer,
            seconds,
            begun: None,
        }
    }

    /// The stream from which a peer's request is read.
    pub fn of_request(peer: P, patience: Patience) -> TimedStream<P>
        ensures peer { result.peer ≡ peer }
        ensures seconds { result.seconds ≡ patience.request_seconds }
        ensures begun { result.begun ≡ None }
    {
        TimedStream::new(peer, patience.request_seconds)
    }

    /// The stream to which a peer's answer is written.
    pub fn of_answer(peer: P, patience: Patience) -> TimedStream<P>
        ensures peer { result.peer ≡ peer }
        ensures seconds { result.seconds ≡ patience.answer_seconds }
        ensures begun { result.begun ≡ None }
    {
        TimedStream::new(peer, patience.answer_seconds)
    }

    // How long the next call may wait.
    fn time_left(&mut self) -> io::Result<Duration>
        ensures asks { (calls : List Call) × Makes (P.calls self.old.peer) (P.calls self.new.peer) calls
            × AsksLeft (nanos self.old.seconds) self.old.begun self.new.begun calls result }
        ensures seconds { self.new.seconds ≡ self.old.seconds }
        ensures unread { Keeps (P.remaining self.old.peer) (P.remaining self.new.peer) }
        ensures unsent { Keeps (P.contents self.old.peer) (P.contents self.new.peer) }
    {
        let now = self.peer.time()?;
        let begun = self.begun.unwrap_or(now);
        self.begun = Some(begun);
        let left = Duration::from_secs(self.seconds).saturating_sub(now.duration_since(begun));
        if left.is_zero() {
            return Err(ErrorKind::TimedOut.into());
        }
        Ok(left)
    }

    // Reads what comes, up to so many bytes. A read that a signal interrupts is made again.
    fn drain(&mut self, bytes: usize)
        ensures { (calls : List Call) × Makes (P.calls self.old.peer) (P.calls self.new.peer) calls
            × HasDrained (nanos self.old.seconds) self.old.begun bytes calls }
    {
        let mut buffer = [0u8; 4096];
        let mut left = bytes;
        for _turn in 0..u64::MAX {
            if left == 0 {
                return;
            }
            match self.read(&mut buffer) {
                Ok(0) => return,
                Ok(count) => left = left.saturating_sub(count),
                Err(error) => {
                    if error.kind() != ErrorKind::Interrupted {
                        return;
                    }
                }
            }
        }
    }
}

impl<P: Peer> Read for TimedStream<P> {
    ghost remaining = { λ s. P.remaining s.peer };

    // Reads some bytes within the time that is left.
    fn read(&mut self, buf: &mut [u8]) -> io::Result<usize>
        ensures bound { ReadsAtMost result buf.new }
        ensures bytes { ReadConsumes (P.remaining self.old.peer) (P.remaining self.new.peer) result buf.new }
        ensures uses { (calls : List Call) × Makes (P.calls self.old.peer) (P.calls self.new.peer) calls
            × UsesInTime (λ n r. Reads n r) (nanos self.old.seconds) self.old.begun self.new.begun calls result }
        ensures seconds { self.new.seconds ≡ self.old.seconds }
    {
        let left = self.time_left()?;
        self.peer.read_within(left, buf)
    }
}

impl<P: Peer> Write for TimedStream<P> {
    ghost contents = { λ s. P.contents s.peer };

    // Writes some bytes within the time that is left.
    fn write(&mut self, buf: &[u8]) -> io::Result<usize>
        ensures bound { WritesAtMost result buf.now }
        ensures bytes { WriteAppends (P.contents self.old.peer) (P.contents self.new.peer) result buf.now }
        ensures uses { (calls : List Call) × Makes (P.calls self.old.peer) (P.calls self.new.peer) calls
            × UsesInTime (λ n r. Writes n r) (nanos self.old.seconds) self.old.begun self.new.begun calls result }
        ensures seconds { self.new.seconds ≡ self.old.seconds }
    {
        let left = self.time_left()?;
        self.peer.write_within(left, buf)
    }

    fn flush(&mut self) -> io::Result<()> {
        Ok(())
    }
}

/// Ends a stream whose answer was written: what the peer still sends is taken in, up to a limit, so that it loses nothing of the answer.
pub(crate) fn end_answered<P: Peer>(mut peer: P, patience: Patience) -> P
    ensures { (calls : List Call) × Makes (P.calls peer) (P.calls result) calls
        × EndsAnswered (nanos patience.rest_seconds) patience.rest_bytes calls }
{
    if peer.end_output().is_err() {
        return peer;
    }
    let mut rest = TimedStream::new(peer, patience.rest_seconds);
    rest.drain(patience.rest_bytes);
    let TimedStream {
        peer,
        seconds: _,
        begun: _,
    } = rest;
    peer
}
