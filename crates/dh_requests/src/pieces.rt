//! The pieces of a target, behind its route's text.

ghost use Rattle.std.specs.Prelude.{◌≡◌, ◌≤◌, ◌+◌, length, take, drop};
ghost use Rattle.dh_requests.specs.Pieces.{first_slash};
ghost use Rattle.dh_requests.specs.Targets.{HasPieces, IsTarget};

use crate::routes::Route;

// The place of the first slash; the number of bytes where there is none.
fn first_slash(bytes: &[u8]) -> usize
    ensures value { result ≡ first_slash bytes.now }
    ensures within { result ≤ length bytes.now }
{
    let mut place = 0;
    while place < bytes.len() {
        if bytes[place] == b'/' {
            return place;
        }
        place += 1;
    }
    place
}

// The bytes before the first slash, and those behind it.
fn cut(bytes: &[u8]) -> (&[u8], &[u8])
    ensures before { result.0.now ≡ take (first_slash bytes.now) bytes.now }
    ensures behind { result.1.now ≡ drop (first_slash bytes.now + 1) bytes.now }
{
    let slash = first_slash(bytes);
    match bytes.get(slash + 1..) {
        Some(rest) => (&bytes[..slash], rest),
        None => (bytes, b""),
    }
}

/// The pieces behind the route's text in a target of the route: the first, and the second, each empty where the route has none.
pub(crate) fn pieces_of(route: Route, target: &[u8]) -> (&[u8], &[u8])
    requires { IsTarget route target.now }
    ensures { HasPieces route target.now result.0.now result.1.now }
{
    let (word, count) = route.words();
    let behind = word.len() + 2;
    match count {
        0 => (b"", b""),
        1 => (&target[behind..], b""),
        _ => cut(&target[behind..]),
    }
}
