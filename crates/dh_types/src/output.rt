//! That a writer failed, and the one write that says so.

ghost use Rattle.std.specs.Prelude.{◌<◌, ◌≤◌, length, take, IfOk, OnErr};
ghost use Rattle.std.specs.Io.KnownBytes.{Appends, Keeps};

use std::io::{ErrorKind, Write};

/// The writer failed, or took no byte. Nothing but [`write_some`] makes one, so who has one had it of a writer.
#[derive(Clone, Copy, Debug, PartialEq, Eq)]
pub struct Output {
    noted: (),
}

/// One write, and how many bytes it took. It is made again where a signal interrupts it.
pub(crate) fn write_some<W: Write>(writer: &mut W, bytes: &[u8]) -> Result<usize, Output>
    requires { 0 < length bytes.now }
    ensures some { IfOk result (λ n. 0 < n) }
    ensures within { IfOk result (λ n. n ≤ length bytes.now) }
    ensures ok { IfOk result (λ n. Appends (W.contents writer.old) (W.contents writer.new) (take n bytes.now)) }
    ensures err { OnErr result (Keeps (W.contents writer.old) (W.contents writer.new)) }
{
    for _ in 0..u64::MAX {
        match writer.write(bytes) {
            Ok(0) => return Err(Output { noted: () }),
            Ok(count) => return Ok(count),
            Err(error) => {
                if error.kind() != ErrorKind::Interrupted {
                    return Err(Output { noted: () });
                }
            }
        }
    }
    Err(Output { noted: () })
}
