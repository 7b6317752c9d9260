//! Writing a text to any writer, whole or a beginning of it. It takes no memory.

ghost use Rattle.std.specs.Prelude.{map};
ghost use Rattle.std.specs.List.{concat};
ghost use Rattle.dh_types.specs.Output.{Puts};

use crate::output::{Output, write_some};
use std::io::Write;

/// Writes all the bytes; at an `Output` a beginning of them was written, and not all. A write that a signal interrupts is made
/// again.
pub fn put<W: Write>(writer: &mut W, bytes: &[u8]) -> Result<(), Output>
    ensures { Puts (W.contents writer.old) (W.contents writer.new) result bytes.now }
{
    let mut rest = bytes;
    while !rest.is_empty() {
        match write_some(writer, rest) {
            Ok(n) => rest = &rest[n..],
            Err(output) => return Err(output),
        }
    }
    Ok(())
}

/// Writes the parts, one after the other; at an `Output` a beginning of them was written, and not all.
pub fn put_pieces<W: Write>(writer: &mut W, parts: &[&[u8]]) -> Result<(), Output>
    ensures { Puts (W.contents writer.old) (W.contents writer.new) result (concat (map (λ p. p.now) parts.now)) }
{
    for part in parts {
        put(writer, part)?;
    }
    Ok(())
}
