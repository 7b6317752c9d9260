//! Filling a buffer from a reader.

ghost use Rattle.std.specs.Prelude.{◌≡◌, ◌-◌, ◌≤◌, ◌<◌, IfOk, OnErr, take, length, List, ℕ, Option};
ghost use Rattle.std.specs.Io.KnownBytes.{Consumes, IsAtEnd, Keeps};
ghost use Rattle.dh_reading.specs.Bodies.{FillsOrEnds};
ghost use Rattle.dh_reading.specs.Known.{ConsumesAtMost};

use crate::again::{ReaderFailed, read_again};
use std::io::Read;

/// Reads once, after the first `filled` bytes of the buffer, and gives how many it has then: as many at the end of input.
pub fn read_more<R: Read>(
    reader: &mut R,
    buffer: &mut [u8],
    filled: usize,
) -> Result<usize, ReaderFailed>
    requires { filled < length buffer.now }
    ensures within { IfOk result (λ total. (filled ≤ total) × (total ≤ length buffer.new)) }
    ensures length { length buffer.new ≡ length buffer.old }
    ensures bytes { (start : Option (List ℕ)) → Consumes start (R.remaining reader.old) (take filled buffer.old)
        → IfOk result (λ total. Consumes start (R.remaining reader.new) (take total buffer.new)) }
    ensures end { IfOk result (λ total. total ≡ filled → IsAtEnd (R.remaining reader.new)) }
    ensures consumed { IfOk result (λ total. ConsumesAtMost (total - filled) (R.remaining reader.old) (R.remaining reader.new)) }
    ensures err { OnErr result (Keeps (R.remaining reader.old) (R.remaining reader.new)) }
{
    let count = read_again(reader, &mut buffer[filled..])?;
    Ok(filled + count)
}

/// Reads after the first `front` bytes until the buffer is full, which is true, or the input ends.
pub(crate) fn fill<R: Read>(
    reader: &mut R,
    buffer: &mut [u8],
    front: usize,
) -> Result<bool, ReaderFailed>
    requires { front ≤ length buffer.now }
    ensures length { length buffer.new ≡ length buffer.old }
    ensures bytes { (start : Option (List ℕ)) → Consumes start (R.remaining reader.old) (take front buffer.old)
        → IfOk result (FillsOrEnds start (R.remaining reader.new) buffer.new) }
    ensures consumed { ConsumesAtMost (length buffer.old - front) (R.remaining reader.old) (R.remaining reader.new) }
{
    let mut filled = front;
    while filled < buffer.len() {
        let total = read_more(reader, buffer, filled)?;
        if total == filled {
            return Ok(false);
        }
        filled = total;
    }
    Ok(true)
}
