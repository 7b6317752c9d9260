//! The head of a request.

ghost use Rattle.std.specs.Prelude.{◌≡◌, ◌≤◌, ◌<◌, IfOk, length, List, ℕ};
ghost use Rattle.httparse.specs.Grammar.{RequestHead};
ghost use Rattle.dh_requests.specs.Heads.{HeadOf, JudgedAs, IfFound, IsInBuffer, IsHead, IsBadHead, IsLargeHead};
ghost use Rattle.dh_reading.specs.Known.{ConsumesAtMost, IfBoth};

use crate::limits::{HEAD_BYTES, HEADER_LINES, ROOM};
use dh_reading::{ReaderFailed, read_more};
use httparse::spans::{HeaderSpan, RequestSpans, parse_request};
use httparse::{Error, Status};
use std::io::Read;

/// A head in a buffer, of which `filled` bytes were read.
#[derive(Clone, Copy, Debug)]
pub(crate) struct Head {
    pub spans: RequestSpans,
    pub filled: usize,
}

/// What the bytes of a connection begin with.
#[derive(Clone, Copy, Debug)]
pub(crate) enum HeadRead {
    /// A head within the limits.
    Found(Head),
    /// No byte came before the end of input.
    Closed,
    /// No head, whatever may follow, or the input ends before the head does.
    Bad,
    /// More than `HEAD_BYTES` bytes or more than `HEADER_LINES` header lines.
    Large,
}

// What the bytes so far are.
#[derive(Clone, Copy, Debug)]
enum Judged {
    Whole(RequestSpans),
    Partial,
    Wrong,
    TooLarge,
}

fn judge(front: &[u8], headers: &mut [HeaderSpan]) -> Judged
    requires { length headers.now ≡ HEADER_LINES }
    ensures judged { JudgedAs front.now headers.new result }
    ensures room { length headers.new ≡ HEADER_LINES }
{
    match parse_request(front, headers) {
        Ok(Status::Complete(spans)) => Judged::Whole(spans),
        Ok(Status::Partial) => Judged::Partial,
        Err(Error::TooManyHeaders) => Judged::TooLarge,
        Err(_) => Judged::Wrong,
    }
}

/// Reads until a head is complete or refused, a limit is passed, or the input ends, and no more than the buffer holds. An error is
/// the reader's.
pub(crate) fn read_head<R: Read>(
    reader: &mut R,
    buffer: &mut [u8],
    headers: &mut [HeaderSpan],
) -> Result<HeadRead, ReaderFailed>
    requires room { length buffer.now ≡ ROOM }
    requires lines { length headers.now ≡ HEADER_LINES }
    ensures found { IfOk result (λ read. IfFound read (IsInBuffer buffer.new headers.new)) }
    ensures input { IfOk result (λ read. IfBoth (R.remaining reader.old) (R.remaining reader.new)
        (λ input after. HeadOf input after buffer.new headers.new read)) }
    ensures consumed { ConsumesAtMost ROOM (R.remaining reader.old) (R.remaining reader.new) }
{
    let mut filled = 0usize;
    while filled < ROOM {
        let total = read_more(reader, buffer, filled)?;
        if total == filled {
            return Ok(if filled == 0 {
                HeadRead::Closed
            } else {
                HeadRead::Bad
            });
        }
        filled = total;
        match judge(&buffer[..filled], headers) {
            Judged::Whole(spans) => {
                return Ok(if spans.len > HEAD_BYTES {
                    HeadRead::Large
                } else {
                    HeadRead::Found(Head { spans, filled })
                });
            }
            Judged::Partial => {}
            Judged::TooLarge => return Ok(HeadRead::Large),
            Judged::Wrong => return Ok(HeadRead::Bad),
        }
    }
    Ok(HeadRead::Large)
}

/// An input has one outcome, in whatever pieces it is read.
pub fn one_outcome()
    ensures { (input : List ℕ) (h : RequestHead) (rest : List ℕ) → IsHead input h rest
        → (¬ IsBadHead input) × (¬ IsLargeHead input)
        × ((k : RequestHead) (q : List ℕ) → IsHead input k q → (h ≡ k) × (rest ≡ q)) }
{}
