//! A reader that notes whether the one below it failed or ended.

ghost use Rattle.std.specs.Prelude.{◌≡◌, ◌≢◌, ◌<◌, length, IfOk, IfErr, OnErr, OnOk, Ok, Some, None, false, true, if◌then◌else◌};
ghost use Rattle.std.specs.Io.{ReadsAtMost};
ghost use Rattle.std.specs.Io.KnownBytes.{ReadConsumes};
ghost use Rattle.std.specs.IoError.{error_kind};
ghost use Rattle.dh_lines.specs.Reading.{left_of};

use dh_reading::read_again;
use std::io;
use std::io::{ErrorKind, Read};

/// Why no more is read, though the input has not ended: the reader failed, or as many records were read as can be counted. Only a
/// read that failed makes the first, and [`Input::full`] the second, so who has the first had it of a reader.
#[derive(Clone, Copy, Debug, PartialEq, Eq)]
pub struct Input {
    // Clauses alone read it.
    is_full: bool,
}

impl Input {
    /// As many records were read as can be counted.
    pub(crate) fn full() -> Self
        ensures { result.is_full ≡ true }
    {
        Input { is_full: true }
    }
}

/// Reads through another reader, and notes whether that failed or ended. A read that a signal interrupts is made again, and is no failure:
/// no error has that kind. Only a reader that is interrupted without end fails by that, with an error of the kind `Other`. A reader that
/// ended is asked no more: at a terminal each further read would wait for one more end of the input.
#[derive(Drop)]
pub(crate) struct Watching<'a, R> {
    inner: &'a mut R,
    // Only `read` sets these.
    has_failed: bool,
    has_ended: bool,
}

impl<'a, R> Watching<'a, R> {
    /// The reader has neither failed nor ended yet.
    pub(crate) fn new(inner: &'a mut R) -> Watching<'a, R>
        ensures inner { result.inner.now ≡ inner.old }
        ensures unfailed { result.has_failed ≡ false }
        ensures unended { result.has_ended ≡ false }
    {
        Watching {
            inner,
            has_failed: false,
            has_ended: false,
        }
    }

    /// That the reader failed, if it did.
    pub(crate) fn failure(&self) -> Option<Input>
        ensures { result ≡ (if self.now.has_failed then Some (record { is_full = false }) else None) }
    {
        if self.has_failed {
            return Some(Input { is_full: false });
        }
        None
    }
}

impl<R: Read> Read for Watching<'_, R> {
    ghost remaining = { λ w. left_of w.has_ended (R.remaining w.inner.now) };

    fn read(&mut self, buf: &mut [u8]) -> io::Result<usize>
        ensures bound { ReadsAtMost result buf.new }
        ensures bytes { ReadConsumes (left_of self.old.has_ended (R.remaining self.old.inner.now))
            (left_of self.new.has_ended (R.remaining self.new.inner.now)) result buf.new }
        ensures unfailed { OnOk result (self.new.has_failed ≡ self.old.has_failed) }
        ensures failed { OnErr result (self.new.has_failed ≡ true) }
        ensures again { IfErr result (λ e. error_kind e ≢ ErrorKind.Interrupted) }
        ensures ended { self.old.has_ended ≡ true → (result ≡ Ok 0) × (self.new ≡ self.old) }
        ensures noted { IfOk result (λ n. n ≡ 0 → 0 < length buf.new → self.new.has_ended ≡ true) }
    {
        if self.has_ended {
            return Ok(0);
        }
        match read_again(self.inner, buf) {
            Ok(count) => {
                self.has_ended = count == 0 && !buf.is_empty();
                Ok(count)
            }
            Err(failed) => {
                self.has_failed = true;
                Err(failed.error())
            }
        }
    }
}
