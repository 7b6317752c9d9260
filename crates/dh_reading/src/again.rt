//! Reading again where a signal interrupts a read.

ghost use Rattle.std.specs.Prelude.{◌≡◌, ◌≢◌, ◌<◌, ℕ, List, Result, IfOk, OnErr, take, length};
ghost use Rattle.std.specs.Io.{ReadsAtMost};
ghost use Rattle.std.specs.Io.KnownBytes.{Consumes, IsAtEnd, Keeps};
ghost use Rattle.std.specs.IoError.{error_kind};
ghost use Rattle.std.specs.declared.io.Error.{Error};
ghost use Rattle.std.specs.declared.io.ErrorKind.TheVariants as kind;
ghost use Rattle.dh_reading.specs.Reads.{AreOfOneRead, Makes};

use crate::source::Source;
use std::io;
use std::io::ErrorKind;

/// That a reader failed, and how. Only [`read_again`] makes it, so who has one had it of a reader.
#[derive(Clone, Copy, Debug)]
pub struct ReaderFailed {
    error: io::Error,
    ghost uninterrupted: { error_kind error ≢ kind.Interrupted },
}

impl ReaderFailed {
    /// The error: never that a signal came.
    pub fn error(&self) -> io::Error
        ensures is { result ≡ self.now.error }
        ensures uninterrupted { error_kind result ≢ ErrorKind.Interrupted }
    {
        self.error
    }
}

/// One read, made again where a signal interrupts it: as many bytes as it gave, or its error. Where each of `u64::MAX` reads was
/// interrupted, an error of the kind `Other` is told.
pub fn read_again<S: Source>(source: &mut S, buf: &mut [u8]) -> Result<usize, ReaderFailed>
    ensures bound { ReadsAtMost result buf.new }
    ensures length { length buf.new ≡ length buf.old }
    ensures ok { IfOk result (λ n. Consumes (S.remaining source.old) (S.remaining source.new) (take n buf.new)) }
    ensures end { IfOk result (λ n. n ≡ 0 → 0 < length buf.old → IsAtEnd (S.remaining source.new)) }
    ensures err { OnErr result (Keeps (S.remaining source.old) (S.remaining source.new)) }
    ensures made { (reads : List (Result ℕ Error)) × Makes (S.reads source.old) (S.reads source.new) reads
        × AreOfOneRead (λ failed. failed.error) reads result }
{
    for _turn in 0..u64::MAX {
        match source.read_once(buf) {
            Ok(count) => return Ok(count),
            Err(error) => {
                if error.kind() != ErrorKind::Interrupted {
                    return Err(ReaderFailed { error });
                }
            }
        }
    }
    Err(ReaderFailed {
        error: ErrorKind::Other.into(),
    })
}
