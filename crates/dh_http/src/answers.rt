//! Answers, and sending them.

ghost use Rattle.std.specs.Prelude.{◌≡◌, [], false, unwrap_or, IfOk};
ghost use Rattle.http.specs.StatusCode.{reason_phrase};
ghost use Rattle.dh_types.specs.Output.{Puts};
ghost use Rattle.dh_types.specs.Reports.{is_no_report, report_of};
ghost use Rattle.dh_agency.specs.Requests.{said_in};
ghost use Rattle.dh_http.specs.Served.{said_answer};
ghost use Rattle.dh_http.specs.Answers.{Sends, Writes, allow_line, answer_text, body_bytes, content_line, fault_answer, head_of, json_answer};
ghost use Rattle.dh_http.specs.Answers.{refusal_answer, refusal_status, reply_answer, report_answer, said, turned_answer, turned_status};

use crate::fault::NetFault;
use arrayvec::ArrayVec;
use dh_reports::write;
use dh_requests::Turned;
use dh_types::text_writer::{put, put_pieces};
use dh_types::{Answer, Fault, Output, Refusal, Reply};
use http::StatusCode;
use itoa::Buffer;
use std::alloc::{AllocError, Global};
use std::io::Write;

/// The head of an answer, with room for the longest, of some 160 bytes.
type Head = ArrayVec<u8, 256>;

/// What the body of an answer is.
#[derive(Clone, Copy)]
pub(crate) enum Content {
    Json,
    Report,
    Empty,
}

/// The bytes of a body.
#[derive(Drop)]
pub(crate) enum Body {
    /// They were made for this answer.
    Made(Vec<u8>),
    /// They take no memory.
    Fixed(&'static str),
}

/// There was no memory for an answer: an allocation failed, or a text that is written to memory broke off.
#[derive(Clone, Copy)]
pub(crate) enum NoMemory {
    Allocation(AllocError),
    Text(Output),
}

impl From<AllocError> for NoMemory {
    fn from(error: AllocError) -> NoMemory {
        NoMemory::Allocation(error)
    }
}

impl From<Output> for NoMemory {
    fn from(output: Output) -> NoMemory {
        NoMemory::Text(output)
    }
}

/// An answer, before it is sent. `allow` is a whole header line, or nothing.
#[derive(Drop)]
pub(crate) struct Response {
    status: StatusCode,
    content: Content,
    allow: &'static str,
    body: Body,
}

// The bytes of the body.
fn bytes_of(body: &Body) -> &[u8]
    ensures { result.now ≡ body_bytes body.now }
{
    match body {
        Body::Made(bytes) => bytes.as_slice(),
        Body::Fixed(text) => text.as_bytes(),
    }
}

// The phrase of a status, if it has one.
fn phrase(status: StatusCode) -> &'static str
    ensures { result.now ≡ unwrap_or (reason_phrase status) [] }
{
    status.canonical_reason().unwrap_or("")
}

fn content_line(content: Content) -> &'static str
    ensures { result.now ≡ content_line content }
{
    match content {
        Content::Json => "Content-Type: application/json\r\n",
        Content::Report => "Content-Type: text/plain; charset=utf-8\r\n",
        Content::Empty => "",
    }
}

// Writes the head of an answer part by part.
fn put_head_in_pieces<W: Write>(writer: &mut W, it: &Response) -> Result<(), Output>
    ensures { Puts (W.contents writer.old) (W.contents writer.new) result (head_of (said it.now)) }
{
    let length = bytes_of(&it.body).len();
    let mut digits = Buffer::new();
    put_pieces(
        writer,
        &[
            b"HTTP/1.1 ",
            it.status.as_str().as_bytes(),
            b" ",
            phrase(it.status).as_bytes(),
            b"\r\n",
            content_line(it.content).as_bytes(),
            b"Content-Length: ",
            digits.format(length).as_bytes(),
            b"\r\n",
            it.allow.as_bytes(),
            b"Connection: close\r\n\r\n",
        ],
    )
}

// Writes the head of an answer at once; one that had no room would be written part by part.
fn put_head<W: Write>(writer: &mut W, it: &Response) -> Result<(), Output>
    ensures { Puts (W.contents writer.old) (W.contents writer.new) result (head_of (said it.now)) }
{
    let mut head: Head = ArrayVec::new();
    match put_head_in_pieces(&mut head, it) {
        Ok(()) => put(writer, &head),
        Err(_) => put_head_in_pieces(writer, it),
    }
}

// Writes the head and the body of an answer.
fn put_whole<W: Write>(writer: &mut W, it: &Response) -> Result<(), Output>
    ensures { Puts (W.contents writer.old) (W.contents writer.new) result (answer_text (said it.now)) }
{
    put_head(writer, it)?;
    put(writer, bytes_of(&it.body))
}

/// Writes an answer, and tells its status.
pub(crate) fn send<W: Write>(writer: &mut W, it: &Response) -> Result<StatusCode, NetFault>
    ensures { Writes (W.contents writer.old) (W.contents writer.new) (said it.now) result }
{
    put_whole(writer, it)?;
    Ok(it.status)
}

/// The same, where memory for the answer may have run out, before which the machine's step was made or not.
pub(crate) fn send_made<W: Write>(
    writer: &mut W,
    made: Result<Response, NoMemory>,
    acted: bool,
) -> Result<StatusCode, NetFault>
    ensures { Sends (W.contents writer.old) (W.contents writer.new) acted made result }
{
    match made {
        Ok(it) => send(writer, &it),
        Err(_) => Err(NetFault::Memory { acted }),
    }
}

// The status of a request that is turned away.
fn turned_status(why: Turned) -> StatusCode
    ensures { result ≡ turned_status why }
{
    match why {
        Turned::BadRequest => StatusCode::BAD_REQUEST,
        Turned::NotFound => StatusCode::NOT_FOUND,
        Turned::OnlyByPost | Turned::OnlyByGet => StatusCode::METHOD_NOT_ALLOWED,
        Turned::NoLength => StatusCode::LENGTH_REQUIRED,
        Turned::BodyTooLarge => StatusCode::PAYLOAD_TOO_LARGE,
        Turned::HeadTooLarge => StatusCode::REQUEST_HEADER_FIELDS_TOO_LARGE,
        Turned::NotImplemented => StatusCode::NOT_IMPLEMENTED,
    }
}

// The header line that names the route's method, where another was used.
fn allow_line(why: Turned) -> &'static str
    ensures { result.now ≡ allow_line why }
{
    match why {
        Turned::OnlyByPost => "Allow: POST\r\n",
        Turned::OnlyByGet => "Allow: GET\r\n",
        _ => "",
    }
}

/// The answer to a request that is turned away. It takes no memory.
pub(crate) fn turned(why: Turned) -> Response
    ensures { said result ≡ turned_answer why }
{
    Response {
        status: turned_status(why),
        content: Content::Empty,
        allow: allow_line(why),
        body: Body::Fixed(""),
    }
}

// The answer with this number and text.
fn json(alloc: Global, status: StatusCode, code: u8, text: &str) -> Result<Response, NoMemory>
    ensures { IfOk result (λ it. said it ≡ json_answer status code text.now) }
{
    let text = dh_requests::reply(alloc, code, text)?;
    Ok(Response {
        status,
        content: Content::Json,
        allow: "",
        body: Body::Made(text.into_bytes()),
    })
}

// The status of a refusal.
fn refusal_status(why: &Refusal) -> StatusCode
    ensures { result ≡ refusal_status why.now }
{
    match why {
        Refusal::BadLine(_) => StatusCode::BAD_REQUEST,
        _ => StatusCode::CONFLICT,
    }
}

// The answer to what is refused.
fn refused(alloc: Global, why: Refusal) -> Result<Response, NoMemory>
    ensures { IfOk result (λ it. said it ≡ refusal_answer why) }
{
    let text = why.to_string(alloc)?;
    json(alloc, refusal_status(&why), why.number(), &text)
}

// The answer to a command that was replied to so.
fn replied(alloc: Global, reply: Reply) -> Result<Response, NoMemory>
    ensures { IfOk result (λ it. said it ≡ reply_answer reply) }
{
    if let Reply::Refused(why) = reply {
        return refused(alloc, why);
    }
    let text = reply.to_string(alloc)?;
    json(alloc, StatusCode::OK, 0, &text)
}

// The answer with the text of a report.
fn reported(alloc: Global, answer: &Answer) -> Result<Response, NoMemory>
    requires { is_no_report (report_of answer.now) ≡ false }
    ensures { IfOk result (λ it. said it ≡ report_answer (report_of answer.now)) }
{
    let mut body = Vec::new(alloc);
    write(answer, &mut body)?;
    Ok(Response {
        status: StatusCode::OK,
        content: Content::Report,
        allow: "",
        body: Body::Made(body),
    })
}

// The answer to a question that was answered so.
fn shown(alloc: Global, answer: &Answer) -> Result<Response, NoMemory>
    ensures { IfOk result (λ it. said it ≡ report_answer (report_of answer.now)) }
{
    match answer {
        Answer::Refused(why) => refused(alloc, *why),
        _ => reported(alloc, answer),
    }
}

/// The answer to a request to which the agency responded so.
pub(crate) fn made(alloc: Global, response: &dh_agency::Response) -> Result<Response, NoMemory>
    ensures { IfOk result (λ it. said it ≡ said_answer (said_in response.now)) }
{
    match response {
        dh_agency::Response::Reply(reply) => replied(alloc, *reply),
        dh_agency::Response::Report(answer) => shown(alloc, answer),
    }
}

// The body that tells a fault.
fn fault_body(fault: Fault) -> &'static str
    ensures { result.now ≡ (fault_answer fault).body }
{
    match fault {
        Fault::Memory => "{\"code\":21,\"text\":\"fault 21\"}",
        Fault::Store => "{\"code\":22,\"text\":\"fault 22\"}",
        Fault::Stopped => "{\"code\":23,\"text\":\"fault 23\"}",
    }
}

/// The answer to a request that met a fault. It takes no memory.
pub(crate) fn faulted(fault: Fault) -> Response
    ensures { said result ≡ fault_answer fault }
{
    Response {
        status: StatusCode::SERVICE_UNAVAILABLE,
        content: Content::Json,
        allow: "",
        body: Body::Fixed(fault_body(fault)),
    }
}
