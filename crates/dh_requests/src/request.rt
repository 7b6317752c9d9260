//! Reading a request.

ghost use Rattle.std.specs.Prelude.{◌≡◌, [], IfOk, IfSome, Err, MatchOption};
ghost use Rattle.dh_requests.specs.Requests.{ConsumesRequest, MayAsk, MayNeedMemory};

use crate::head::{HeadRead, read_head};
use crate::judged_request::{JudgedRequest, Turned};
use crate::limits::{HEADER_LINES, ROOM};
use crate::routes::Routes;
use crate::verdict::{Found, judge};
use dh_reading::Unread;
use httparse::spans::EMPTY_HEADER_SPAN;
use std::alloc::Global;
use std::io::Read;

/// Reads a request as far as the order in which it is judged needs, and gives what it asks for. `None` where no byte came before
/// the end of input. `Input` is told only where the reader failed.
pub fn read_request<R: Read>(
    alloc: Global,
    routes: &Routes,
    reader: &mut R,
) -> Result<Option<JudgedRequest>, Unread>
    ensures asks { IfOk result (λ found. IfSome (R.remaining reader.old) (λ input. MatchOption found (input ≡ []) (λ asked. MayAsk input asked))) }
    ensures consumed { ConsumesRequest (R.remaining reader.old) (R.remaining reader.new) }
    ensures memory { result ≡ Err Unread.Memory → IfSome (R.remaining reader.old) MayNeedMemory }
{
    let mut buffer = [0u8; ROOM];
    let mut headers = [EMPTY_HEADER_SPAN; HEADER_LINES];
    let read = read_head(reader, &mut buffer, &mut headers)?;
    match read {
        HeadRead::Found(head) => {
            let found = Found {
                front: &buffer[..head.filled],
                headers: &headers,
                spans: head.spans,
            };
            Ok(Some(judge(alloc, routes, reader, &found)?))
        }
        HeadRead::Bad => Ok(Some(JudgedRequest::Turned(Turned::BadRequest))),
        HeadRead::Large => Ok(Some(JudgedRequest::Turned(Turned::HeadTooLarge))),
        HeadRead::Closed => Ok(None),
    }
}
