//! What the header lines say of the body.

ghost use Rattle.std.specs.Prelude.{◌≡◌, length, map, All, codes};
ghost use Rattle.httparse.specs.Spans.{IsHeaderWithin, header_bytes};
ghost use Rattle.dh_requests.specs.HeaderLines.{same_name, values_of, body_length, length_of, with_value};

use crate::limits::BODY_BYTES;
use httparse::spans::HeaderSpan;

/// How many bytes of body a request announces.
#[derive(Clone, Copy, Debug, PartialEq, Eq)]
pub(crate) enum BodyLength {
    /// No Content-Length line.
    Absent,
    /// Several lines, or a value that is no number.
    Invalid,
    /// A number above `BODY_BYTES`.
    TooLarge,
    /// So many bytes.
    Bytes(u32),
}

// What the value of a Content-Length line says.
fn length_of(value: &[u8]) -> BodyLength
    ensures { result ≡ length_of value.now }
{
    if value.is_empty() {
        return BodyLength::Invalid;
    }
    let mut bytes = 0u32;
    for digit in value {
        if !digit.is_ascii_digit() {
            return BodyLength::Invalid;
        }
        bytes = (bytes * 10 + u32::from(*digit - b'0')).min(BODY_BYTES + 1);
    }
    if bytes > BODY_BYTES {
        return BodyLength::TooLarge;
    }
    BodyLength::Bytes(bytes)
}

// Whether the names are the same, but for the case of ASCII letters.
fn is_named(name: &[u8], wanted: &[u8]) -> bool
    ensures { result ≡ same_name name.now wanted.now }
{
    name.eq_ignore_ascii_case(wanted)
}

/// How many of the lines have this name, in any case of its ASCII letters.
pub(crate) fn count(buffer: &[u8], headers: &[HeaderSpan], name: &[u8]) -> usize
    requires { All (IsHeaderWithin (length buffer.now)) headers.now }
    ensures { result ≡ length (values_of name.now (map (header_bytes buffer.now) headers.now)) }
{
    let mut found = 0;
    for header in headers {
        if is_named(header.name.of(buffer), name) {
            found += 1;
        }
    }
    found
}

// What the lines so far say, with one more value.
fn with_value(found: BodyLength, value: &[u8]) -> BodyLength
    ensures { result ≡ with_value found value.now }
{
    match found {
        BodyLength::Absent => length_of(value),
        _ => BodyLength::Invalid,
    }
}

/// What the Content-Length lines say: `Invalid` for two or more, and for a value that is not one or more digits.
pub(crate) fn body_length(buffer: &[u8], headers: &[HeaderSpan]) -> BodyLength
    requires { All (IsHeaderWithin (length buffer.now)) headers.now }
    ensures { result ≡ body_length (values_of (codes "content-length") (map (header_bytes buffer.now) headers.now)) }
{
    let mut found = BodyLength::Absent;
    for header in headers {
        if is_named(header.name.of(buffer), b"content-length") {
            found = with_value(found, header.value.of(buffer));
        }
    }
    found
}
