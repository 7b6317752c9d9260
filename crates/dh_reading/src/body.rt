//! A body of so many bytes.

ghost use Rattle.std.specs.Prelude.{◌≡◌, ◌++◌, ◌-◌, IfOk, IfSome, Err, length, vec_len};
ghost use Rattle.dh_reading.specs.Bodies.{BodyOf, IsFilled};
ghost use Rattle.dh_reading.specs.Known.{ConsumesAtMost};

use crate::again::ReaderFailed;
use crate::buffer::fill;
use crate::unread::Unread;
use std::alloc::Global;
use std::io::Read;

// Fills the body from what was read already, with what may follow it, and from the reader. False: the input ends first.
fn fill_from<R: Read>(reader: &mut R, body: &mut [u8], front: &[u8]) -> Result<bool, ReaderFailed>
    ensures length { length body.new ≡ length body.old }
    ensures whole { IfOk result (λ whole. IfSome (R.remaining reader.old) (λ after. IsFilled (front.now ++ after) body.new whole)) }
    ensures consumed { ConsumesAtMost (length body.old - length front.now) (R.remaining reader.old) (R.remaining reader.new) }
{
    let most = body.len();
    if front.len() >= most {
        body.copy_from_slice(&front[..most]);
        return Ok(true);
    }
    body[..front.len()].copy_from_slice(front);
    fill(reader, body, front.len())
}

/// Reads a body of so many bytes, of which `front` was read already, with what may follow it. `None`: the input ends before it
/// does. Want of memory is told before a byte is read. What is read of the reader is no more than what `front` lacks of the body.
pub fn read_body<R: Read>(
    alloc: Global,
    reader: &mut R,
    front: &[u8],
    bytes: usize,
) -> Result<Option<Vec<u8>>, Unread>
    ensures length { IfOk result (λ body. IfSome body (λ whole. vec_len whole ≡ bytes)) }
    ensures body { IfOk result (λ body. IfSome (R.remaining reader.old) (λ after. BodyOf (front.now ++ after) bytes body)) }
    ensures consumed { ConsumesAtMost (bytes - length front.now) (R.remaining reader.old) (R.remaining reader.new) }
    ensures memory { result ≡ Err Unread.Memory → reader.new ≡ reader.old }
{
    let mut body = vec![in alloc; 0u8; bytes]?;
    if !fill_from(reader, body.as_mut_slice(), front)? {
        return Ok(None);
    }
    Ok(Some(body))
}
