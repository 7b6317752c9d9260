//! What is read from, with the reads that were made of it.

ghost use Rattle.std.specs.Prelude.{ℕ, List, [], ◌∷◌, Option, None, Result};
ghost use Rattle.std.specs.Io.{ReadsAtMost};
ghost use Rattle.std.specs.Io.KnownBytes.{ReadConsumes};
ghost use Rattle.std.specs.declared.io.Error.{Error};
ghost use Rattle.dh_reading.specs.Reads.{Makes};

use std::io;
use std::io::Read;

/// What is read from. Each reader is one, of which no reads are known.
pub trait Source {
    // The bytes that reads will give from here on, where they are known.
    ghost remaining: { Self → Option (List ℕ) } = { λ _. None };

    // The reads that were made, in order, by what each gave, where they are known.
    ghost reads: { Self → Option (List (Result ℕ Error)) } = { λ _. None };

    /// Reads some bytes, once.
    fn read_once(&mut self, buf: &mut [u8]) -> io::Result<usize>
        ensures bound { ReadsAtMost result buf.new }
        ensures bytes { ReadConsumes (remaining self.old) (remaining self.new) result buf.new }
        ensures made { Makes (reads self.old) (reads self.new) (result ∷ []) };
}

impl<R: Read> Source for R {
    ghost remaining = { R.remaining };

    fn read_once(&mut self, buf: &mut [u8]) -> io::Result<usize> {
        self.read(buf)
    }
}
