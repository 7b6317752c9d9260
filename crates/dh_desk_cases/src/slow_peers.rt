//! Peers that are slow, by a clock of their own: each asks an agency in memory, whose peers have a second. A line is `HABIT REQUEST -> OUTCOME`,
//! with escapes. OUTCOME is the status that is told, or `lost`, the milliseconds that the connection took, and the bytes of the
//! answer that the peer took. A line `door N -> TRY` is a door at which the first N tries are interrupted, and the try that gave a connection.

use crate::haste::HASTE;
use dh_agency_test_kit::in_memory;
use dh_http::{Door, Peer, TimedStream, accept, serve_peer};
use dh_requests::Routes;
use dh_test_kit::{Tally, compare, parted, spelled};
use http::StatusCode;
use std::alloc::{AllocError, Global};
use std::cell::Cell;
use std::io;
use std::io::{ErrorKind, Read};
use std::time::{Duration, Instant};

/// What a peer does.
#[derive(Clone, Copy, PartialEq, Eq)]
enum Habit {
    /// It sends its request at once, and takes the answer.
    Prompt,
    /// It sends a byte each 400 milliseconds.
    Trickles,
    /// It takes 20 bytes of the answer.
    StopsReading,
    /// It takes the answer, and keeps its side open.
    NeverShuts,
}

impl Habit {
    fn named(name: &str) -> Habit {
        match name {
            "trickles" => Habit::Trickles,
            "stops-reading" => Habit::StopsReading,
            "never-shuts" => Habit::NeverShuts,
            _ => Habit::Prompt,
        }
    }

    // How many milliseconds a read takes.
    fn pause(self) -> u64 {
        if self == Habit::Trickles { 400 } else { 0 }
    }

    // How many bytes a read gives at most.
    fn bytes_read(self) -> usize {
        if self == Habit::Trickles { 1 } else { 4096 }
    }

    // How many bytes of the answer are taken at most.
    fn bytes_taken(self) -> usize {
        if self == Habit::StopsReading {
            20
        } else {
            1_000_000
        }
    }
}

/// A peer, its clock, its request, and how many bytes it sent and took.
#[derive(Clone, Copy)]
struct SlowPeer<'a> {
    habit: Habit,
    begun: Instant,
    millis: &'a Cell<u64>,
    request: &'a [u8],
    sent: &'a Cell<usize>,
    taken: &'a Cell<usize>,
}

impl SlowPeer<'_> {
    // Lets so much time pass.
    fn pass(&self, millis: u64) {
        self.millis.set(self.millis.get().saturating_add(millis));
    }

    // Waits for as long as may be waited.
    fn wait(&self, limit: Duration) -> io::Error {
        self.pass(u64::try_from(limit.as_millis()).unwrap_or(u64::MAX));
        ErrorKind::WouldBlock.into()
    }
}

impl Peer for SlowPeer<'_> {
    fn time(&mut self) -> io::Result<Instant> {
        match self
            .begun
            .checked_add(Duration::from_millis(self.millis.get()))
        {
            Some(now) => Ok(now),
            None => Err(ErrorKind::Other.into()),
        }
    }

    fn read_within(&mut self, limit: Duration, buf: &mut [u8]) -> io::Result<usize> {
        let mut left = self.request.get(self.sent.get()..).unwrap_or(&[]);
        if left.is_empty() && self.habit != Habit::NeverShuts {
            return Ok(0);
        }
        if left.is_empty() || limit < Duration::from_millis(self.habit.pause()) {
            return Err(self.wait(limit));
        }
        self.pass(self.habit.pause());
        let room = buf.len().min(self.habit.bytes_read());
        let count = left.read(&mut buf[..room])?;
        self.sent.set(self.sent.get().saturating_add(count));
        Ok(count)
    }

    fn write_within(&mut self, limit: Duration, buf: &[u8]) -> io::Result<usize> {
        let room = self.habit.bytes_taken().saturating_sub(self.taken.get());
        if room == 0 {
            return Err(self.wait(limit));
        }
        let count = buf.len().min(room);
        self.taken.set(self.taken.get().saturating_add(count));
        Ok(count)
    }

    fn end_output(&mut self) -> io::Result<()> {
        Ok(())
    }
}

// What serving the peer comes to, over an agency in memory.
fn served(alloc: Global, peer: SlowPeer) -> Result<Option<StatusCode>, AllocError> {
    let routes = Routes::new(alloc)?;
    let Some(mut agency) = in_memory(alloc)? else {
        return Ok(None);
    };
    let mut reader = TimedStream::of_request(peer, HASTE);
    let mut writer = TimedStream::of_answer(peer, HASTE);
    let (told, _) = serve_peer(
        alloc,
        &routes,
        &mut agency,
        &mut reader,
        &mut writer,
        peer,
        HASTE,
    );
    drop(agency.into_store());
    Ok(told)
}

fn outcome(rt: &HostRuntime, habit: &str, request: &str) -> io::Result<String> {
    let alloc = rt.alloc();
    let request = spelled(alloc, request)?;
    let (millis, sent, taken) = (Cell::new(0), Cell::new(0), Cell::new(0));
    let peer = SlowPeer {
        habit: Habit::named(habit),
        begun: Instant::now(rt)?,
        millis: &millis,
        request: request.as_bytes(),
        sent: &sent,
        taken: &taken,
    };
    let told = match served(alloc, peer)? {
        Some(status) => status.as_str().to_string(alloc)?,
        None => "lost".to_string(alloc)?,
    };
    Ok(format!(in alloc; "{} {} {}", told.as_str(), millis.get(), taken.get())?)
}

// A door at which so many tries more are interrupted.
#[derive(Drop)]
struct InterruptedDoor {
    left: u32,
    tries: u32,
}

impl Door for InterruptedDoor {
    type Caller = u32;

    fn try_next(&mut self) -> io::Result<u32> {
        self.tries = self.tries.saturating_add(1);
        if self.left == 0 {
            return Ok(self.tries);
        }
        self.left = self.left.saturating_sub(1);
        Err(ErrorKind::Interrupted.into())
    }
}

// The try that gave a connection.
fn taken_at(alloc: Global, interrupted: &str) -> Result<String, AllocError> {
    let mut door = InterruptedDoor {
        left: interrupted.parse().unwrap_or(0),
        tries: 0,
    };
    match accept(&mut door) {
        Ok(at) => format!(in alloc; "{at}"),
        Err(_) => "an error".to_string(alloc),
    }
}

/// Plays each line.
pub fn play(rt: &HostRuntime, tally: &mut Tally, lines: &str) -> io::Result<()> {
    for line in lines.lines() {
        let (told, want) = parted(line);
        let (kind, rest) = told.split_once(' ').unwrap_or((told, ""));
        let got = match kind {
            "door" => taken_at(rt.alloc(), rest)?,
            _ => outcome(rt, kind, rest)?,
        };
        compare(rt, tally, line, got.as_str(), want)?;
    }
    Ok(())
}
