//! Judging a request by its head.

ghost use Rattle.std.specs.Prelude.{◌≡◌, ◌↔◌, ◌≢◌, ◌∷◌, ℕ, List, map, length, All, IsTrue, IfOk, Err, codes};
ghost use Rattle.httparse.specs.Grammar.{RequestHead};
ghost use Rattle.httparse.specs.Spans.{IsHeaderWithin};
ghost use Rattle.dh_requests.specs.Targets.{IsTarget};
ghost use Rattle.dh_requests.specs.Requests.{IsByMethod, IsOfHead, IsOfRoute, IsQuestionOf, NeedsMemory, WantsMemory, taken_as, turned_by_lines};
ghost use Rattle.dh_fields.specs.Lines.{a_question, request_of};
ghost use Rattle.dh_requests.specs.Steps.{Behind, ConsumesBody, ConsumesOrder, HoldsHead, IsHeadOf, read_behind};

use crate::command_body::judge_command;
use crate::header_lines::{body_length, count};
use crate::judged_request::{JudgedRequest, Turned};
use crate::pieces::pieces_of;
use crate::routes::{Route, Routes};
use dh_fields::read_question;
use dh_reading::Unread;
use dh_types::{Question, Refusal, Request};
use httparse::spans::{HeaderSpan, RequestSpans};
use std::alloc::Global;
use std::io::Read;
use std::str;

/// The bytes that were read, and where in them the head of the request stands.
#[derive(Clone, Copy)]
pub(crate) struct Found<'a> {
    pub(crate) front: &'a [u8],
    pub(crate) headers: &'a [HeaderSpan],
    pub(crate) spans: RequestSpans,
}

// The request's method is this one.
fn is_method(method: &[u8], wanted: &[u8]) -> bool
    ensures { IsTrue result ↔ (method.now ≡ wanted.now) }
{
    method == wanted
}

// Why the header lines turn the request away, if they do.
fn turned_by_lines(found: &Found) -> Option<Turned>
    requires { HoldsHead found.now }
    ensures { (h : RequestHead) → IsHeadOf found.now h → result ≡ turned_by_lines h }
{
    let lines = &found.headers[..found.spans.headers];
    if found.spans.version == 1 && count(found.front, lines, b"host") != 1 {
        return Some(Turned::BadRequest);
    }
    if count(found.front, lines, b"transfer-encoding") > 0 {
        return Some(Turned::NotImplemented);
    }
    None
}

// The request's target. In the grammar of heads it is a text.
fn target_of<'a>(found: &Found<'a>) -> &'a str
    requires at { (h : RequestHead) × IsHeadOf found.now h }
    requires within { HoldsHead found.now }
    ensures { (h : RequestHead) → IsHeadOf found.now h → result.now ≡ h.target }
{
    match str::from_utf8(found.spans.path.of(found.front)) {
        Ok(target) => target,
        Err(_) => unreachable!(),
    }
}

// The question of a word, with as many pieces.
fn read_pieces(word: &[u8], count: usize, first: &[u8], second: &[u8]) -> Result<Question, Refusal>
    ensures { (pieces : List (List ℕ)) → count ≡ length pieces
        → a_question result ≡ request_of (codes "show" ∷ word.now ∷ taken_as pieces first.now second.now) }
{
    match count {
        0 => read_question(&[b"show", word]),
        1 => read_question(&[b"show", word, first]),
        _ => read_question(&[b"show", word, first, second]),
    }
}

// What a target asks by its route.
fn asked_by(route: Route, target: &[u8]) -> JudgedRequest
    requires target { IsTarget route target.now }
    requires asks { route ≢ Route.Commands }
    ensures { IsQuestionOf route target.now result }
{
    let (first, second) = pieces_of(route, target);
    let (word, count) = route.words();
    match read_pieces(word.as_bytes(), count, first, second) {
        Ok(question) => JudgedRequest::Fields(Ok(Request::Question(question))),
        Err(refusal) => JudgedRequest::Fields(Err(refusal)),
    }
}

// What a request asks for whose target has the route of a question.
fn judge_question(method: &[u8], route: Route, target: &[u8]) -> JudgedRequest
    requires target { IsTarget route target.now }
    requires asks { route ≢ Route.Commands }
    ensures { IsByMethod (codes "GET") method.now Turned.OnlyByGet result (IsQuestionOf route target.now result) }
{
    if !is_method(method, b"GET") {
        return JudgedRequest::Turned(Turned::OnlyByGet);
    }
    asked_by(route, target)
}

// What a request asks for whose target is the route of commands.
fn judge_order<R: Read>(
    alloc: Global,
    reader: &mut R,
    found: &Found,
) -> Result<JudgedRequest, Unread>
    requires { HoldsHead found.now }
    ensures asks { (h : RequestHead) → IsHeadOf found.now h
        → IfOk result (λ asked. Behind (read_behind found.now) (R.remaining reader.old) (λ rest. IsOfRoute Route.Commands h rest asked)) }
    ensures consumed { (h : RequestHead) → IsHeadOf found.now h → ConsumesOrder h (read_behind found.now) (R.remaining reader.old) (R.remaining reader.new) }
    ensures memory { result ≡ Err Unread.Memory → (h : RequestHead) → IsHeadOf found.now h → NeedsMemory Route.Commands h }
{
    if !is_method(found.spans.method.of(found.front), b"POST") {
        return Ok(JudgedRequest::Turned(Turned::OnlyByPost));
    }
    let length = body_length(found.front, &found.headers[..found.spans.headers]);
    judge_command(alloc, reader, &found.front[found.spans.len..], length)
}

// What a request asks for whose target has this route.
fn judge_route<R: Read>(
    alloc: Global,
    reader: &mut R,
    found: &Found,
    route: Route,
    target: &str,
) -> Result<JudgedRequest, Unread>
    requires within { HoldsHead found.now }
    requires target { IsTarget route target.now }
    ensures asks { (h : RequestHead) → IsHeadOf found.now h → target.now ≡ h.target
        → IfOk result (λ asked. Behind (read_behind found.now) (R.remaining reader.old) (λ rest. IsOfRoute route h rest asked)) }
    ensures consumed { (h : RequestHead) → IsHeadOf found.now h → target.now ≡ h.target
        → ConsumesBody h (read_behind found.now) (R.remaining reader.old) (R.remaining reader.new) }
    ensures memory { result ≡ Err Unread.Memory → (h : RequestHead) → IsHeadOf found.now h → target.now ≡ h.target → NeedsMemory route h }
{
    match route {
        Route::Commands => judge_order(alloc, reader, found),
        _ => {
            let method = found.spans.method.of(found.front);
            Ok(judge_question(method, route, target.as_bytes()))
        }
    }
}

/// What a request with a head within the limits asks for.
pub(crate) fn judge<R: Read>(
    alloc: Global,
    routes: &Routes,
    reader: &mut R,
    found: &Found,
) -> Result<JudgedRequest, Unread>
    requires at { (h : RequestHead) × IsHeadOf found.now h }
    requires within { HoldsHead found.now }
    ensures asks { (h : RequestHead) → IsHeadOf found.now h
        → IfOk result (λ asked. Behind (read_behind found.now) (R.remaining reader.old) (λ rest. IsOfHead h rest asked)) }
    ensures consumed { (h : RequestHead) → IsHeadOf found.now h → ConsumesBody h (read_behind found.now) (R.remaining reader.old) (R.remaining reader.new) }
    ensures memory { result ≡ Err Unread.Memory → (h : RequestHead) → IsHeadOf found.now h → WantsMemory h }
{
    match turned_by_lines(found) {
        Some(why) => Ok(JudgedRequest::Turned(why)),
        None => {
            let target = target_of(found);
            match routes.of(target) {
                Some(route) => judge_route(alloc, reader, found, route, target),
                None => Ok(JudgedRequest::Turned(Turned::NotFound)),
            }
        }
    }
}
