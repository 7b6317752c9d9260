//! Readers and writers over memory that fail from a chosen call on, or that a signal interrupts at a chosen call, to try what runs over
//! them.

ghost use Rattle.std.specs.Prelude.{◌≡◌, ◌≢◌, ◌+◌, ◌-◌, ◌↔◌, length, min, Some, Ok, IfOk, IfErr, IsOk, IsErrAnd, IsTrue};
ghost use Rattle.std.specs.Io.{ReadsAtMost, WritesAtMost};
ghost use Rattle.std.specs.Io.KnownBytes.{Keeps, ReadConsumes, WriteAppends};
ghost use Rattle.std.specs.IoError.{error_kind};

use std::io;
use std::io::{ErrorKind, Read, Write};

/// A reader that gives a byte a read, so many times. Each read behind these fails with an error of the kind `Other` and changes nothing.
#[derive(Drop)]
pub struct FailingReader<'a> {
    pub inner: &'a [u8],
    /// How many more reads succeed.
    pub reads: u64,
}

impl Read for FailingReader<'_> {
    ghost remaining = { λ r. Some r.inner.now };

    fn read(&mut self, buf: &mut [u8]) -> io::Result<usize>
        ensures bound { ReadsAtMost result buf.new }
        ensures bytes { ReadConsumes (Some self.old.inner.now) (Some self.new.inner.now) result buf.new }
        ensures failed { self.old.reads ≡ 0 → IsErrAnd result (λ e. error_kind e ≡ ErrorKind.Other) }
        ensures unchanged { self.old.reads ≡ 0 → self.new ≡ self.old }
        ensures counted { self.old.reads ≢ 0 → self.new.reads + 1 ≡ self.old.reads }
        ensures passed { self.old.reads ≢ 0
            → result ≡ Ok (min (min 1 (length buf.old)) (length self.old.inner.now)) }
    {
        if self.reads == 0 {
            return Err(ErrorKind::Other.into());
        }
        self.reads -= 1;
        let room = buf.len().min(1);
        self.inner.read(&mut buf[..room])
    }
}

// Counts a call, and tells whether it is the one that is interrupted.
fn count_down(calls: &mut u64) -> bool
    ensures value { IsTrue result ↔ (calls.old ≡ 1) }
    ensures counted { calls.new ≡ calls.old - 1 }
{
    let is_interrupted = *calls == 1;
    *calls = calls.saturating_sub(1);
    is_interrupted
}

/// A reader that gives a byte a read. One read of them fails with an error of the kind `Interrupted`, and takes no byte; those behind it go
/// on from there.
#[derive(Drop)]
pub struct InterruptedReader<'a> {
    pub inner: &'a [u8],
    /// Which of the reads to come is interrupted: 1 is the next one, and at 0 none is.
    pub calls: u64,
}

impl Read for InterruptedReader<'_> {
    ghost remaining = { λ r. Some r.inner.now };

    fn read(&mut self, buf: &mut [u8]) -> io::Result<usize>
        ensures bound { ReadsAtMost result buf.new }
        ensures bytes { ReadConsumes (Some self.old.inner.now) (Some self.new.inner.now) result buf.new }
        ensures interrupted { self.old.calls ≡ 1 → IsErrAnd result (λ e. error_kind e ≡ ErrorKind.Interrupted) }
        ensures unchanged { self.old.calls ≡ 1 → self.new.inner ≡ self.old.inner }
        ensures counted { self.new.calls ≡ self.old.calls - 1 }
        ensures passed { self.old.calls ≢ 1
            → result ≡ Ok (min (min 1 (length buf.old)) (length self.old.inner.now)) }
    {
        if count_down(&mut self.calls) {
            return Err(ErrorKind::Interrupted.into());
        }
        let count = buf.len().min(1);
        self.inner.read(&mut buf[..count])
    }
}

/// A writer that takes a byte a write, so many times. Each write behind these fails with an error of the kind `Other` and changes
/// nothing. A write before these fails for want of memory alone.
#[derive(Drop)]
pub struct FailingWriter {
    pub inner: Vec<u8>,
    /// How many more writes succeed.
    pub writes: u64,
}

impl Write for FailingWriter {
    ghost contents = { λ w. Some w.inner.items };

    fn write(&mut self, buf: &[u8]) -> io::Result<usize>
        ensures bound { WritesAtMost result buf.now }
        ensures bytes { WriteAppends (Some self.old.inner.items) (Some self.new.inner.items) result buf.now }
        ensures failed { self.old.writes ≡ 0 → IsErrAnd result (λ e. error_kind e ≡ ErrorKind.Other) }
        ensures unchanged { self.old.writes ≡ 0 → self.new ≡ self.old }
        ensures counted { self.old.writes ≢ 0 → self.new.writes + 1 ≡ self.old.writes }
        ensures passed { self.old.writes ≢ 0 → IfOk result (λ n. n ≡ min 1 (length buf.now)) }
        ensures memory { self.old.writes ≢ 0 → IfErr result (λ e. error_kind e ≡ ErrorKind.OutOfMemory) }
    {
        if self.writes == 0 {
            return Err(ErrorKind::Other.into());
        }
        self.writes -= 1;
        let some = buf.len().min(1);
        self.inner.write(&buf[..some])
    }

    fn flush(&mut self) -> io::Result<()>
        ensures bytes { Keeps (Some self.old.inner.items) (Some self.new.inner.items) }
        ensures ok { IsOk result }
        ensures unchanged { self.new ≡ self.old }
    {
        self.inner.flush()
    }
}

/// A writer that takes a byte a write. One write of them fails with an error of the kind `Interrupted`, and takes no byte; those behind it
/// go on from there. Else a write fails for want of memory alone.
#[derive(Drop)]
pub struct InterruptedWriter {
    pub inner: Vec<u8>,
    /// Which of the writes to come is interrupted: 1 is the next one, and at 0 none is.
    pub calls: u64,
}

impl Write for InterruptedWriter {
    ghost contents = { λ w. Some w.inner.items };

    fn write(&mut self, buf: &[u8]) -> io::Result<usize>
        ensures bound { WritesAtMost result buf.now }
        ensures bytes { WriteAppends (Some self.old.inner.items) (Some self.new.inner.items) result buf.now }
        ensures interrupted { self.old.calls ≡ 1 → IsErrAnd result (λ e. error_kind e ≡ ErrorKind.Interrupted) }
        ensures unchanged { self.old.calls ≡ 1 → self.new.inner ≡ self.old.inner }
        ensures counted { self.new.calls ≡ self.old.calls - 1 }
        ensures passed { self.old.calls ≢ 1 → IfOk result (λ n. n ≡ min 1 (length buf.now)) }
        ensures memory { self.old.calls ≢ 1 → IfErr result (λ e. error_kind e ≡ ErrorKind.OutOfMemory) }
    {
        if count_down(&mut self.calls) {
            return Err(ErrorKind::Interrupted.into());
        }
        let count = buf.len().min(1);
        self.inner.write(&buf[..count])
    }

    fn flush(&mut self) -> io::Result<()>
        ensures bytes { Keeps (Some self.old.inner.items) (Some self.new.inner.items) }
        ensures ok { IsOk result }
        ensures unchanged { self.new ≡ self.old }
    {
        self.inner.flush()
    }
}
