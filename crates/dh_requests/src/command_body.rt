//! The body of a command.

ghost use Rattle.std.specs.Prelude.{◌≡◌, ◌≤◌, ◌-◌, ◌⊎◌, ℕ, List, length, map, IfOk, OnErr, Err};
ghost use Rattle.json.specs.Scratch.{room};
ghost use Rattle.dh_reading.specs.Known.{ConsumesAtMost};
ghost use Rattle.dh_requests.specs.Texts.{AreTexts};
ghost use Rattle.dh_requests.specs.Requests.{IsBodyOf, IsPosted, is_question, posted};
ghost use Rattle.dh_requests.specs.Steps.{Behind, ConsumesLength, IsListed, IsTextsOf};

use crate::body_texts::{list_in, texts_of};
use crate::header_lines::BodyLength;
use crate::judged_request::{JudgedRequest, Turned};
use dh_fields::read_fields;
use dh_reading::{Unread, read_body};
use dh_types::{Refusal, Request};
use json::Scratch;
use serde_json::Value;
use std::alloc::{AllocError, Global};
use std::io::Read;

// Whether posted texts are a line that asks a question.
fn is_question(texts: &[&[u8]]) -> bool
    ensures { result ≡ is_question (map (λ t. t.now) texts.now) }
{
    match texts.first() {
        Some(word) => *word == b"show".as_slice(),
        None => false,
    }
}

// The request that posted texts are.
fn request_of(alloc: Global, texts: &[&[u8]]) -> Result<Result<Request, Refusal>, AllocError>
    ensures { IfOk result (λ request. request ≡ posted (map (λ t. t.now) texts.now)) }
{
    if is_question(texts) {
        return Ok(Err(Refusal::BadLine(1)));
    }
    read_fields(alloc, texts)
}

// What the values of a posted list ask for.
fn judge_list(alloc: Global, items: &[Value]) -> Result<JudgedRequest, AllocError>
    ensures asks { IfOk result (λ asked. IsListed items.now asked) }
{
    match texts_of(alloc, items)? {
        Some(texts) => Ok(JudgedRequest::Fields(request_of(alloc, &texts)?)),
        None => Ok(JudgedRequest::Turned(Turned::BadRequest)),
    }
}

// What a body asks for. An error comes only for want of memory, and of a list of texts alone.
fn judge_body(
    alloc: Global,
    scratch: &mut Scratch,
    body: &[u8],
) -> Result<JudgedRequest, AllocError>
    requires { length body.now ≤ room scratch.old }
    ensures asks { IfOk result (λ asked. IsPosted body.now asked) }
    ensures memory { OnErr result ((texts : List (List ℕ)) × AreTexts body.now texts) }
{
    match list_in(alloc, scratch, body)? {
        Some(items) => judge_list(alloc, &items),
        None => Ok(JudgedRequest::Turned(Turned::BadRequest)),
    }
}

// What a body of so many bytes asks for, whose beginning is `front`, with what may follow it. Memory for the body, and to tell whether
// it is a list of texts, is taken before a byte of it is read.
fn read_posted<R: Read>(
    alloc: Global,
    reader: &mut R,
    front: &[u8],
    bytes: u32,
) -> Result<JudgedRequest, Unread>
    ensures asks { IfOk result (λ asked. Behind front.now (R.remaining reader.old) (λ rest. IsBodyOf (BodyLength.Bytes bytes) rest asked)) }
    ensures consumed { ConsumesAtMost (bytes - length front.now) (R.remaining reader.old) (R.remaining reader.new) }
    ensures memory { result ≡ Err Unread.Memory → (reader.new ≡ reader.old) ⊎ Behind front.now (R.remaining reader.old) (IsTextsOf bytes) }
{
    let mut scratch = Scratch::new(alloc);
    scratch.reserve(bytes as usize)?;
    match read_body(alloc, reader, front, bytes as usize)? {
        Some(body) => Ok(judge_body(alloc, &mut scratch, &body)?),
        None => Ok(JudgedRequest::Turned(Turned::BadRequest)),
    }
}

/// What a command asks for whose body was announced so. `front` is what was read of it, with what may follow it.
pub(crate) fn judge_command<R: Read>(
    alloc: Global,
    reader: &mut R,
    front: &[u8],
    length: BodyLength,
) -> Result<JudgedRequest, Unread>
    ensures asks { IfOk result (λ asked. Behind front.now (R.remaining reader.old) (λ rest. IsBodyOf length rest asked)) }
    ensures consumed { ConsumesLength length front.now (R.remaining reader.old) (R.remaining reader.new) }
    ensures memory { result ≡ Err Unread.Memory → (n : ℕ) × (length ≡ BodyLength.Bytes n) }
{
    match length {
        BodyLength::Absent => Ok(JudgedRequest::Turned(Turned::NoLength)),
        BodyLength::Invalid => Ok(JudgedRequest::Turned(Turned::BadRequest)),
        BodyLength::TooLarge => Ok(JudgedRequest::Turned(Turned::BodyTooLarge)),
        BodyLength::Bytes(bytes) => read_posted(alloc, reader, front, bytes),
    }
}
